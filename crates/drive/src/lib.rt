// The power conditions of one drive (T13 e08120r9, published ACS-2), without registers: settings, timers and the condition the drive is in.
#![tactic(auto)]

ghost use Rattle.std.specs.Prelude.{cond, ◌≡◌, ◌≤◌};
ghost use Rattle.rows.specs.Rows.{map_at};
ghost use Rattle.drive.specs.Drives.{with_settings, with_records, with_idle, with_counts, entered, restarted, counted, ran_out, timers_ask, by_timer, fallen, used, saved_restored, powered_on, made_record};
ghost use Rattle.drive.specs.Drives;
ghost use Rattle.drive.specs.Inner;
ghost use Rattle.drive.specs.Records.{largest_timer, setting_well_formed, numbers_well_formed, setting_zero, others_zero, record_well_formed, records_well_formed, drive_well_formed};

use conditions::{Cause, Power};
use std::array;

// The edition of the standard that the drive follows: e08120r9, the draft, or published ACS-2 (document 02, request (vi)).
#[derive(Clone, Copy, PartialEq, Eq)]
pub enum Edition {
    Draft,
    Published,
}

// Timers and the idle count: tenths of a second. 32 bits: published timers need them, and a number above the largest can be said and refused.
#[derive(Clone, Copy, PartialEq, Eq)]
pub struct Tenths(pub u32);

// Recovery times: milliseconds.
#[derive(Clone, Copy, PartialEq, Eq)]
pub struct Millis(pub u32);

#[derive(Clone, Copy, PartialEq, Eq)]
pub struct Setting {
    pub enabled: bool,
    pub timer: Tenths,
}

// A condition's record.
#[derive(Clone, Copy, PartialEq, Eq)]
pub struct Record {
    pub supported: bool,
    pub saveable: bool,
    pub changeable: bool,
    pub recovery: Millis,
    pub default: Setting,
    pub saved: Setting,
    pub current: Setting,
}

// The transition counts are "kept flat inside the record", and go as a table of six rows of two between functions.
#[derive(Clone, Copy, PartialEq, Eq)]
pub struct Drive {
    pub records: [Record; 5],
    pub power: Power,
    pub idle: Tenths,
    pub counts: [u32; 12],
}

// What the maker says of a condition.
#[derive(Clone, Copy, PartialEq, Eq)]
pub struct Made {
    pub supported: bool,
    pub saveable: bool,
    pub changeable: bool,
    pub recovery: Millis,
    pub default: Setting,
}

// The largest timer and the largest idle count of an edition.
pub fn largest_timer(e: Edition) -> Tenths
    ensures { result.0 ≡ largest_timer e }
{
    match e {
        Edition::Draft => Tenths(65535),
        Edition::Published => Tenths(39321000),
    }
}

fn setting_zero(s: Setting) -> bool
    ensures { result ≡ setting_zero s }
{
    !s.enabled & (s.timer.0 == 0)
}

// Every flag and number but `supported` is zero.
pub fn others_zero(r: Record) -> bool
    ensures { result ≡ others_zero r }
{
    !r.saveable
        & !r.changeable
        & (r.recovery.0 == 0)
        & setting_zero(r.default)
        & setting_zero(r.saved)
        & setting_zero(r.current)
}

// A timer that is set, and within its bound: its flag need not be looked at.
fn set_within(top: Tenths, s: Setting) -> bool
    ensures { result ≡ Inner.set_within top.0 s }
{
    (s.timer.0 != 0) & (s.timer.0 <= top.0)
}

fn timers_set(top: Tenths, r: Record) -> bool
    ensures { result ≡ Inner.timers_set top.0 r }
{
    set_within(top, r.default) & set_within(top, r.saved) & set_within(top, r.current)
}

// The timer within its bound; an enabled setting has one that is not zero.
fn setting_ok(top: Tenths, s: Setting) -> bool
    ensures { result ≡ setting_well_formed top.0 s }
{
    if s.timer.0 == 0 {
        !s.enabled
    } else {
        s.timer.0 <= top.0
    }
}

// Most records have their timers set, and then the recovery time decides.
fn numbers_ok(top: Tenths, r: Record) -> bool
    ensures { result ≡ numbers_well_formed top.0 r }
{
    let recovery = r.recovery.0 <= 65535;
    if timers_set(top, r) {
        return recovery;
    }
    recovery & setting_ok(top, r.default) & setting_ok(top, r.saved) & setting_ok(top, r.current)
}

fn record_ok(top: Tenths, r: Record) -> bool
    ensures { result ≡ record_well_formed top.0 r }
{
    if r.supported {
        numbers_ok(top, r)
    } else {
        others_zero(r)
    }
}

// A `for`, which looks at all five: `all`, which stops at the first that fails, costs each call some 46 instructions.
fn records_ok(top: Tenths, records: [Record; 5]) -> bool
    ensures { result ≡ records_well_formed top.0 records }
{
    let mut ok = true;
    for r in records.iter() {
        ok &= record_ok(top, *r);
    }
    ok
}

// Whether every number and flag of the drive is one that document 01 allows, with this largest timer.
pub fn drive_ok(top: Tenths, d: Drive) -> bool
    ensures { result ≡ drive_well_formed top.0 d }
{
    records_ok(top, d.records) & (d.idle.0 <= top.0)
}

// Every change of condition goes through here, and is counted here alone.
pub fn enter(d: Drive, p: Power) -> Drive
    ensures { result ≡ entered p d }
{
    let counted = transitions::count_entry(transitions::table_of(d.counts), d.power, p);
    Drive {
        power: p,
        counts: transitions::flat_of(counted),
        ..d
    }
}

// Stored to, here and below: of a literal the compiler moves the records once more, 8 to 130 instructions a call.
pub fn with_idle(d: Drive, n: Tenths) -> Drive
    ensures { result ≡ with_idle n.0 d }
{
    let mut e = d;
    e.idle = n;
    e
}

pub fn restart(d: Drive) -> Drive
    ensures { result ≡ restarted d }
{
    with_idle(d, Tenths(0))
}

// An idle count as it was if it is kept, else 0.
pub fn zero_unless(kept: bool, n: Tenths) -> Tenths
    ensures { result.0 ≡ cond kept n.0 0 }
{
    rows::pick(kept, n, Tenths(0))
}

// Other counts: for a record that is set up from parts. No call of the layer comes here.
pub fn with_counts(d: Drive, counts: [u32; 12]) -> Drive
    ensures { result ≡ with_counts counts d }
{
    let mut e = d;
    e.counts = counts;
    e
}

pub fn with_records(d: Drive, records: [Record; 5]) -> Drive
    ensures { result ≡ with_records records d }
{
    let mut e = d;
    e.records = records;
    e
}

pub fn with_settings(r: Record, saved: Setting, current: Setting) -> Record
    ensures { result ≡ with_settings saved current r }
{
    let mut s = r;
    s.saved = saved;
    s.current = current;
    s
}

// One more tenth; at the largest the count stays.
pub fn count(top: Tenths, n: Tenths) -> Tenths
    ensures { result.0 ≡ counted top.0 n.0 }
{
    if n.0 < top.0 { Tenths(n.0 + 1) } else { n }
}

fn ran_out(count: Tenths, r: Record) -> bool
    ensures { result ≡ ran_out count.0 r }
{
    r.current.enabled & (r.current.timer.0 <= count.0)
}

// The depth of the lowest condition that has run out by this count, 0 for none: what the timers ask for, wherever the drive is. "Look from Standby_z
// upwards and stop at the first that has run out" (document 02, request (iii)): that one is the lowest.
pub fn depth_asked(records: [Record; 5], count: Tenths) -> usize
    ensures { (timers_ask records count.0 ≡ by_timer result) × (result ≤ 5) }
{
    match records.iter().rposition(|r| ran_out(count, *r)) {
        Some(place) => place + 1,
        None => 0,
    }
}

// Where timers that ask for this depth, 0 for none, leave the power: a timer only ever lowers it.
pub fn timed_power(asked: usize, power: Power) -> Power
    requires { asked ≤ 5 }
    ensures { result ≡ fallen (by_timer asked) power }
{
    if conditions::depth_of(power) < asked {
        Power::Low(conditions::condition_at(asked - 1), Cause::Timer)
    } else {
        power
    }
}

// Another condition, with another idle count.
pub fn move_to(d: Drive, p: Power, n: Tenths) -> Drive
    ensures { result ≡ entered p (with_idle n.0 d) }
{
    enter(with_idle(d, n), p)
}

// The medium was used, unless the drive is kept as it is. Only the entry is under the branch: what it counts is then at a fixed place.
pub fn use_unless(d: Drive, kept: bool) -> Drive
    ensures { result ≡ cond kept d (used d) }
{
    let next = with_idle(d, zero_unless(kept, d.idle));
    if kept {
        next
    } else {
        enter(next, Power::Active)
    }
}

// A record whose current setting becomes the saved one, unless it is kept.
fn restored_unless(kept: bool, r: Record) -> Record
    ensures { result ≡ with_settings r.saved (cond kept r.current r.saved) r }
{
    with_settings(r, r.saved, rows::pick(kept, r.current, r.saved))
}

// "current becomes saved for all five", unless they are kept.
fn restore_unless(kept: bool, records: [Record; 5]) -> [Record; 5]
    ensures { result ≡ cond kept records (map_at saved_restored 0 records) }
{
    // `from_fn`: `map` goes by way of an array of `Option`s, 135 instructions more a power-on.
    array::from_fn(|place| restored_unless(kept, records[place]))
}

// Power came on, unless the drive is kept as it is.
pub fn power_on_unless(d: Drive, kept: bool) -> Drive
    ensures { result ≡ cond kept d (powered_on d) }
{
    use_unless(with_records(d, restore_unless(kept, d.records)), kept)
}

fn made_record(m: Made) -> Record
    ensures { result ≡ made_record 0 m }
{
    Record {
        supported: m.supported,
        saveable: m.saveable,
        changeable: m.changeable,
        recovery: m.recovery,
        default: m.default,
        saved: m.default,
        current: m.default,
    }
}

fn made_records(made: [Made; 5]) -> [Record; 5]
    ensures { result ≡ map_at made_record 0 made }
{
    made.map(made_record)
}

// Current, saved and default agree; Active, idle count 0, nothing counted.
pub fn manufacture(made: [Made; 5]) -> Drive
    ensures { result ≡ Drives.made made }
{
    Drive {
        records: made_records(made),
        power: Power::Active,
        idle: Tenths(0),
        counts: [0; 12],
    }
}
