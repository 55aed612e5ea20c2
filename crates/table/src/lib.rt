// The power log for the eye: a row a condition in falling power, then the unit's edition, the marks, the idle count, each host's operation
// and how often the disk went where.
// Put piece by piece, not by Display and `write!`: `write!` promises what it wrote only where it answers Ok, and no clause of std says that it does.
#![tactic(auto, using(digits::proofs::Digits::one_by_one))]

ghost use Rattle.std.specs.Prelude.{◌++◌, ◌≡◌, ◌<◌};
ghost use Rattle.digits.specs.Sheets.{written, wrote_all};
ghost use Rattle.digits.specs.Texts.{said, cut};
ghost use Rattle.table.specs.Below;
ghost use Rattle.table.specs.Below.{edition_text, out_text, target_text, stage_text, request_text, slot_text, sense_held_text, held_text, host_text};
ghost use Rattle.table.specs.Counts;
ghost use Rattle.table.specs.Counts.{count_text, columns_text};
ghost use Rattle.table.specs.Rows;
ghost use Rattle.table.specs.Rows.{name_text, yes_text, seconds_text, setting_text, record_text, recovery_text, left_text, label_text};
ghost use Rattle.table.specs.Table.{table_lines};

use conditions::Condition;
use digits::{Sheet, Text};
use drive::{Drive, Edition, Record, Setting};
use requests::{Failure, Request, Stage, Target};
use senses::Sense;
use unit::{Slot, Unit};

// ---- a condition's row

pub fn name_of(c: Condition) -> &'static [u8]
    ensures { result.now ≡ name_text c }
{
    match c {
        Condition::IdleA => b"Idle_A",
        Condition::IdleB => b"Idle_B",
        Condition::IdleC => b"Idle_C",
        Condition::StandbyY => b"Standby_y",
        Condition::StandbyZ => b"Standby_z",
    }
}

fn yes_word(flag: bool) -> &'static [u8]
    ensures { result.now ≡ yes_text flag }
{
    if flag { b"  yes" } else { b"   no" }
}

// Tenths of a second as seconds, at the right end of 12 places.
#[tactic(auto, using(digits::proofs::Lengths::tenths_whole))]
fn put_seconds(t: Text, tenths: u32) -> Text
    ensures { said result ≡ cut (said t ++ seconds_text tenths) }
{
    t.put_right(Text::empty().put_tenths(tenths), 12)
}

fn put_setting(t: Text, s: Setting) -> Text
    ensures { said result ≡ cut (said t ++ setting_text s) }
{
    put_seconds(t.put_either(s.enabled, b"  on", b" off"), s.timer.0)
}

pub fn put_record(t: Text, r: Record) -> Text
    ensures { said result ≡ cut (said t ++ record_text r) }
{
    let flags = t
        .put_all(yes_word(r.supported))
        .put_all(yes_word(r.saveable))
        .put_all(yes_word(r.changeable));
    let default = put_setting(flags, r.default);
    let saved = put_setting(default, r.saved);
    put_setting(saved, r.current)
}

// What a condition needs to recover, at the right end of 13 places.
#[tactic(auto, using(digits::proofs::Lengths::decimal_whole))]
pub fn put_recovery(t: Text, r: Record) -> Text
    ensures { said result ≡ cut (said t ++ recovery_text r) }
{
    t.put_right(Text::empty().put_decimal(r.recovery.0), 13)
}

// A timer runs if it is enabled and names a condition below the present one.
fn is_running(current: Setting, place: usize, d: Drive) -> bool
    ensures { result ≡ Rows.is_running current place d }
{
    let below = conditions::depth_of(d.power) <= place;
    current.enabled & below
}

// How long until a timer has run out, or a dash where it does not run.
fn put_left(t: Text, current: Setting, place: usize, d: Drive) -> Text
    ensures { said result ≡ cut (said t ++ left_text current place d) }
{
    if is_running(current, place, d) {
        let left = current.timer.0.saturating_sub(d.idle.0);
        return put_seconds(t.put_all(b" *"), left);
    }
    t.put_all(b"             -")
}

fn mark(present: bool) -> &'static [u8]
    ensures { result.now ≡ Rows.mark_text present }
{
    if present { b"> " } else { b"  " }
}

fn label(present: bool, c: Condition) -> Text
    ensures { said result ≡ cut (label_text present c) }
{
    Text::of(mark(present)).put_all(name_of(c)).pad_to(11)
}

fn active_row(d: Drive) -> Text
    ensures { said result ≡ cut (Rows.active_row d) }
{
    let present = conditions::depth_of(d.power) == 0;
    Text::of(mark(present)).put_all(b"Active")
}

fn record_row(d: Drive, place: usize, r: Record) -> Text
    requires { place < 5 }
    ensures { said result ≡ cut (Rows.record_row d place r) }
{
    let present = conditions::depth_of(d.power) == place + 1;
    let settings = put_record(label(present, conditions::condition_at(place)), r);
    put_recovery(put_left(settings, r.current, place, d), r)
}

// ---- the lines below the rows

fn edition_line(edition: Edition) -> Text
    ensures { said result ≡ cut (edition_text edition) }
{
    match edition {
        Edition::Draft => Text::of(b"edition      draft"),
        Edition::Published => Text::of(b"edition      published ACS-2"),
    }
}

fn flag_line(name: &[u8], flag: bool) -> Text
    ensures { said result ≡ cut (name.now ++ Below.flag_text flag) }
{
    Text::of(name).put_either(flag, b"yes", b"no")
}

fn idle_line(u: Unit) -> Text
    ensures { said result ≡ cut (Below.idle_text u) }
{
    Text::of(b"idle count   ")
        .put_tenths(u.drive.idle.0)
        .put_all(b" s")
}

fn out_line(out: Option<u32>) -> Text
    ensures { said result ≡ cut (out_text out) }
{
    match out {
        None => Text::of(b"command out  none"),
        Some(host) => Text::of(b"command out  host ").put_decimal(host),
    }
}

fn put_target(t: Text, target: Target) -> Text
    ensures { said result ≡ cut (said t ++ target_text target) }
{
    match target {
        Target::Stop => t.put_all(b"stop"),
        Target::Start => t.put_all(b"start"),
        Target::GoTo(c) => t.put_all(b"go to ").put_all(name_of(c)),
    }
}

fn put_stage(t: Text, stage: Stage) -> Text
    ensures { said result ≡ cut (said t ++ stage_text stage) }
{
    match stage {
        Stage::Straight => t.put_all(b", no flush"),
        Stage::Flushing(n) => t.put_all(b", flushes answered ").put_decimal(n as u32),
    }
}

fn put_request(t: Text, q: Request) -> Text
    ensures { said result ≡ cut (said t ++ request_text q) }
{
    let immed = put_target(t, q.target).put_either(q.immed, b", IMMED", b"");
    put_stage(immed, q.stage)
}

fn put_slot(t: Text, s: Slot) -> Text
    ensures { said result ≡ cut (said t ++ slot_text s) }
{
    match s {
        Slot::Empty => t.put_all(b"nothing waiting"),
        Slot::Waiting(q) => put_request(t, q),
    }
}

// Which failure a host has still to hear of.
fn put_sense_held(t: Text, s: Sense) -> Text
    ensures { said result ≡ cut (said t ++ sense_held_text s) }
{
    let sense = t
        .put_all(b", deferred sense")
        .put_sense(s.key, s.asc, s.ascq, b' ', b'/');
    sense.put_all(b" held")
}

fn put_held(t: Text, h: Option<Failure>) -> Text
    ensures { said result ≡ cut (said t ++ held_text h) }
{
    match h {
        None => t,
        Some(f) => put_sense_held(t, requests::failure_sense(f)),
    }
}

fn host_line(u: Unit, host: u32) -> Text
    ensures { said result ≡ cut (host_text u host) }
{
    let name = Text::of(b"host ").put_decimal(host).put_all(b"       ");
    let operation = put_slot(name, unit::slot_of(u.slots, host));
    put_held(operation, unit::held_of(u.held, host))
}

// ---- how often the disk went where

// A count, at the right end of 12 places.
#[tactic(auto, using(digits::proofs::Lengths::decimal_whole))]
fn put_count(t: Text, n: u32) -> Text
    ensures { said result ≡ cut (said t ++ count_text n) }
{
    t.put_right(Text::empty().put_decimal(n), 12)
}

fn row_name(row: usize) -> &'static [u8]
    requires { row < 6 }
    ensures { result.now ≡ Counts.row_name row }
{
    if row == 0 {
        return b"Active";
    }
    name_of(conditions::condition_at(row - 1))
}

// The row's two counts, and their sum as the page has it.
fn put_columns(t: Text, table: [[u32; 2]; 6], row: usize) -> Text
    requires { row < 6 }
    ensures { said result ≡ cut (said t ++ columns_text row table) }
{
    let timer = put_count(t, table[row][0]);
    let other = put_count(timer, table[row][1]);
    put_count(other, transitions::row_sum(table, row))
}

fn count_row(u: Unit, row: usize) -> Text
    requires { row < 6 }
    ensures { said result ≡ cut (Counts.count_row u row) }
{
    let name = Text::of(row_name(row)).pad_to(13);
    put_columns(name, transitions::table_of(u.drive.counts), row)
}

// ---- the whole

#[tactic(auto, unfolding(digits::specs::Sheets::wrote_all))]
pub fn put_table(u: Unit, out: &mut Sheet<'_>)
    ensures { written out.new ≡ wrote_all (written out.old) (table_lines u) }
{
    out.put_line(Text::of(
        b"  condition supp save chng       default s         saved s       current s   time left s  recovery ms",
    ));
    out.put_line(Text::of(
        b"> present ---------------------------------------------------------------- * runs -------------------",
    ));
    out.put_line(active_row(u.drive));
    for (place, r) in u.drive.records.iter().enumerate() {
        out.put_line(record_row(u.drive, place, *r));
    }
    out.put_line(edition_line(u.edition));
    out.put_line(flag_line(b"stopped      ", u.stopped));
    out.put_line(flag_line(b"unsaved      ", u.unsaved));
    out.put_line(idle_line(u));
    out.put_line(out_line(u.out));
    for host in 0..4 {
        out.put_line(host_line(u, host));
    }
    out.put_line(Text::of(b"entries          by timer   otherwise    page 1Ah"));
    for row in 0..6 {
        out.put_line(count_row(u, row));
    }
}
