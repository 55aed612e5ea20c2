// The registers of SET FEATURES EPC (T13 e08120r9, published ACS-2): what they select, when they abort, what they change.
#![tactic(auto)]

ghost use Rattle.std.specs.Prelude.{cond, ◌≡◌};
ghost use Rattle.rows.specs.Rows.{some_at, map_at};
ghost use Rattle.drive.specs.Drives.{with_settings, entered};
ghost use Rattle.epc.specs.Epc.{sub_of, reserved_below, reserved_in_lba, is_unknown, is_go_to, restored_from, saved_too, timer_in, timer_set, flag_set, changed, changed_at, gone_to, performed};
ghost use Rattle.epc.specs.Epc;
ghost use Rattle.epc.specs.Inner;
ghost use Rattle.registers.specs.declared.Named.TheVariants.{One, Every};

use conditions::{Cause, Condition, Power};
use drive::{Drive, Edition, Record, Setting, Tenths};
use registers::{Named, Registers};
use std::array;

// Stays an enum with a case for what is not listed: document 01's match over the codes and its refused ranges has that case.
#[derive(Clone, Copy, PartialEq, Eq)]
pub enum Sub {
    Restore,
    GoTo,
    SetTimer,
    SetState,
    Unknown,
}

// LBA bits 3:0 are the subcommand.
fn sub_of(lba: u32) -> Sub
    ensures { result ≡ sub_of lba }
{
    match (lba % 16) as u8 {
        0 => Sub::Restore,
        1 => Sub::GoTo,
        2 => Sub::SetTimer,
        3 => Sub::SetState,
        4..=0xFF => Sub::Unknown,
    }
}

// Bit 4 of LBA.
fn save(lba: u32) -> bool
    ensures { result ≡ Epc.save lba }
{
    (lba >> 4) % 2 != 0
}

// Of 2h, a reserved bit below the timer: published ACS-2 names bit 7, "the draft still aborts on bit 7" (document 02, request (vi)).
fn reserved_below(e: Edition, lba: u32) -> bool
    ensures { result ≡ reserved_below e lba }
{
    match e {
        Edition::Draft => (lba >> 6) % 4 != 0,
        Edition::Published => (lba >> 6) % 2 != 0,
    }
}

// Bits not named are reserved: whether one of them is one. A u32 has no bit above 31, so `lba >> 7` is bits 31:7.
fn reserved_in_lba(e: Edition, sub: Sub, lba: u32) -> bool
    ensures { result ≡ reserved_in_lba e sub lba }
{
    match sub {
        Sub::Restore => ((lba >> 5) % 2 != 0) | (lba >> 7 != 0),
        Sub::GoTo => lba >> 4 != 0,
        Sub::SetTimer => reserved_below(e, lba) | (lba >> 24 != 0),
        Sub::SetState => lba >> 6 != 0,
        Sub::Unknown => false,
    }
}

fn is_unknown(sub: Sub) -> bool
    ensures { result ≡ is_unknown sub }
{
    sub == Sub::Unknown
}

fn is_go_to(sub: Sub) -> bool
    ensures { result ≡ is_go_to sub }
{
    sub == Sub::GoTo
}

// Whether a subcommand with this Count selects the condition at a place; FFh "the supported and changeable conditions" (document 02, request (iv)). The
// abort asks it of FFh (`any_selected`, `any_barred`), the change of every Count; of a single Count the abort looks at the one place (`one_unfit`). A go to
// with FFh comes to neither: `every_unfit` aborts it first.
fn selects(sub: Sub, n: Named, place: usize, r: Record) -> bool
    ensures { result ≡ Epc.selects sub n place r }
{
    match n {
        Named::One(c) => place == conditions::place_of(c),
        Named::Every => r.supported & (is_go_to(sub) | r.changeable),
        Named::Unlisted => false,
    }
}

// The registers alone: command or feature differs, the subcommand is above 3h, a reserved bit is one.
fn misread(e: Edition, q: Registers, sub: Sub) -> bool
    ensures { result ≡ Inner.misread e q sub }
{
    (q.command != 0xEF) | (q.feature != 0x4A) | is_unknown(sub) | reserved_in_lba(e, sub, q.lba)
}

// A selected condition that bars the subcommand: unsupported; not changeable, for all but go to; not saveable, with bit 4.
fn barred(goes: bool, save: bool, r: Record) -> bool
    ensures { result ≡ Inner.barred goes save r }
{
    !r.supported | (!goes & !r.changeable) | (save & !r.saveable)
}

// Whether FFh selects a condition.
fn any_selected(sub: Sub, records: [Record; 5]) -> bool
    ensures { result ≡ some_at (Epc.selects sub Every) 0 records }
{
    records
        .iter()
        .enumerate()
        .any(|(place, r)| selects(sub, Named::Every, place, *r))
}

// Whether a condition that FFh selects bars the subcommand.
fn any_barred(sub: Sub, save: bool, records: [Record; 5]) -> bool
    ensures { result ≡ some_at (Inner.selected_barred sub Every save) 0 records }
{
    let goes = is_go_to(sub);
    records.iter().enumerate().any(|(place, r)| selects(sub, Named::Every, place, *r)
        & barred(goes, save, *r))
}

// FFh: a go to, no condition selected, or one that bars the subcommand.
fn every_unfit(sub: Sub, save: bool, records: [Record; 5]) -> bool
    ensures { result ≡ Inner.unfit sub Every save records }
{
    is_go_to(sub) || !any_selected(sub, records) || any_barred(sub, save, records)
}

// The one condition that Count names.
fn one_unfit(sub: Sub, save: bool, records: [Record; 5], c: Condition) -> bool
    ensures { result ≡ Inner.unfit sub (One c) save records }
{
    barred(is_go_to(sub), save, records[conditions::place_of(c)])
}

// Count against the subcommand and the records.
fn unfit(sub: Sub, n: Named, save: bool, records: [Record; 5]) -> bool
    ensures { result ≡ Inner.unfit sub n save records }
{
    match n {
        Named::One(c) => one_unfit(sub, save, records, c),
        Named::Every => every_unfit(sub, save, records),
        Named::Unlisted => true,
    }
}

// Decided before anything changes, so that FFh is all or nothing; the registers alone first.
pub fn aborts(e: Edition, q: Registers, records: [Record; 5]) -> bool
    ensures { result ≡ Epc.aborts e q records }
{
    let sub = sub_of(q.lba);
    if misread(e, q, sub) {
        true
    } else {
        unfit(sub, registers::named_by(q.count), save(q.lba), records)
    }
}

// The current setting changes; the saved one too with bit 4.
fn set_current(lba: u32, saved: Setting, current: Setting, r: Record) -> Record
    ensures { result ≡ with_settings (saved_too lba saved r) current r }
{
    drive::with_settings(r, rows::pick(save(lba), saved, r.saved), current)
}

// From default with bit 6, else from saved.
fn restored_from(lba: u32, r: Record) -> Setting
    ensures { result ≡ restored_from lba r }
{
    rows::pick((lba >> 6) % 2 != 0, r.default, r.saved)
}

// Bits 23:8 are the timer: in minutes with bit 7, which only a published unit takes.
fn timer_in(lba: u32) -> u32
    ensures { result ≡ timer_in lba }
{
    let n = (lba >> 8) % 65536;
    if (lba >> 7) % 2 != 0 { 600 * n } else { n }
}

// Bit 5 enables the timer unless it is zero.
fn timer_set(lba: u32) -> Setting
    ensures { result ≡ timer_set lba }
{
    let timer = timer_in(lba);
    Setting {
        enabled: ((lba >> 5) % 2 != 0) & (timer != 0),
        timer: Tenths(timer),
    }
}

// Bit 5 enables a setting whose timer is not zero.
fn flag_set(lba: u32, s: Setting) -> Setting
    ensures { result ≡ flag_set lba s }
{
    Setting {
        enabled: ((lba >> 5) % 2 != 0) & (s.timer.0 != 0),
        ..s
    }
}

// The effect on a selected condition.
fn change(sub: Sub, lba: u32, r: Record) -> Record
    ensures { result ≡ changed sub lba r }
{
    match sub {
        Sub::Restore => {
            let s = restored_from(lba, r);
            set_current(lba, s, s, r)
        }
        Sub::GoTo => r,
        Sub::SetTimer => {
            let t = timer_set(lba);
            set_current(lba, t, t, r)
        }
        Sub::SetState => set_current(lba, flag_set(lba, r.saved), flag_set(lba, r.current), r),
        Sub::Unknown => r,
    }
}

// A condition that is not selected stays.
fn change_at(sub: Sub, n: Named, lba: u32, place: usize, r: Record) -> Record
    ensures { result ≡ Inner.changed_by sub n lba place r }
{
    if selects(sub, n, place, r) {
        change(sub, lba, r)
    } else {
        r
    }
}

fn change_all(q: Registers, records: [Record; 5]) -> [Record; 5]
    ensures { result ≡ map_at (changed_at q) 0 records }
{
    let sub = sub_of(q.lba);
    let n = registers::named_by(q.count);
    array::from_fn(|place| change_at(sub, n, q.lba, place, records[place]))
}

// The condition that Count names, cause command; else the power as it is.
fn power_named(n: Named, p: Power) -> Power
    ensures { (d : Drive) → d.power ≡ p → entered result d ≡ gone_to n d }
{
    match n {
        Named::One(c) => Power::Low(c, Cause::Command),
        Named::Every => p,
        Named::Unlisted => p,
    }
}

// The unit enters the condition. The power is chosen, not the drive: entering the power that it has changes nothing.
fn go_to(d: Drive, n: Named) -> Drive
    ensures { result ≡ gone_to n d }
{
    drive::enter(d, power_named(n, d.power))
}

// A subcommand that is not aborted; the idle count restarts.
pub fn perform(q: Registers, d: Drive) -> Drive
    ensures { result ≡ performed q d }
{
    let fresh = drive::restart(d);
    if is_go_to(sub_of(q.lba)) {
        go_to(fresh, registers::named_by(q.count))
    } else {
        drive::with_records(fresh, change_all(q, d.records))
    }
}
