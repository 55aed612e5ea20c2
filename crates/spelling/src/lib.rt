// `show`: a record spelled as the lines of a set-up block.
// Put piece by piece, not by Display and `write!`: `write!` promises what it wrote only where it answers Ok, and no clause of std says that it does.
#![tactic(auto, using(digits::proofs::Digits::one_by_one))]

ghost use Rattle.std.specs.Prelude.{◌++◌, ◌≡◌, ◌<◌, get_or};
ghost use Rattle.digits.specs.Sheets.{written, wrote_all};
ghost use Rattle.digits.specs.Texts.{said, cut};
ghost use Rattle.asked.specs.Records;
ghost use Rattle.asked.specs.Records.{settings_of, state_of};
ghost use Rattle.asked.specs.declared.Part.TheVariants.{HasOut};
ghost use Rattle.spelling.specs.Spelling;
ghost use Rattle.spelling.specs.Spelling.{edition_word, letter_word, setting_words, record_words, power_words, state_words, target_word, stage_words};
ghost use Rattle.spelling.specs.Spelling.{request_words, slot_words, spaced_text, held_words, out_words, row_words, counts_words, part_text, shown};

use asked::{Part, State};
use conditions::{Cause, Condition, Power};
use digits::{Sheet, Text};
use drive::{Edition, Record, Setting};
use requests::{Failure, Request, Stage, Target};
use senses::Sense;
use unit::{Slot, Unit};

// ---- the parts of a record

fn settings_of(u: Unit, place: usize) -> Part
    requires { place < 5 }
    ensures { result ≡ settings_of u place }
{
    Part::Settings(conditions::condition_at(place), u.drive.records[place])
}

fn state_of(u: Unit) -> State
    ensures { result ≡ state_of u }
{
    State {
        power: u.drive.power,
        idle: u.drive.idle,
        stopped: u.stopped,
        unsaved: u.unsaved,
    }
}

// ---- their lines

fn spell_edition(t: Text, edition: Edition) -> Text
    ensures { said result ≡ cut (said t ++ edition_word edition) }
{
    t.put_flag(edition == Edition::Published)
}

// Stays a match: the format's letters, a case for each.
fn letter_of(c: Condition) -> u8
    ensures { result ≡ Spelling.letter_of c }
{
    match c {
        Condition::IdleA => b'A',
        Condition::IdleB => b'B',
        Condition::IdleC => b'C',
        Condition::StandbyY => b'Y',
        Condition::StandbyZ => b'Z',
    }
}

fn spell_letter(t: Text, c: Condition) -> Text
    ensures { said result ≡ cut (said t ++ letter_word c) }
{
    t.put(b' ').put(letter_of(c))
}

fn spell_setting(t: Text, s: Setting) -> Text
    ensures { said result ≡ cut (said t ++ setting_words s) }
{
    t.put_flag(s.enabled).put_number(s.timer.0)
}

fn spell_settings(t: Text, r: Record) -> Text
    ensures { said result ≡ cut (said t ++ Spelling.settings_words r) }
{
    let t = spell_setting(t, r.default);
    let t = spell_setting(t, r.saved);
    spell_setting(t, r.current)
}

pub fn spell_record(t: Text, r: Record) -> Text
    ensures { said result ≡ cut (said t ++ record_words r) }
{
    let t = t
        .put_flag(r.supported)
        .put_flag(r.saveable)
        .put_flag(r.changeable);
    spell_settings(t.put_number(r.recovery.0), r)
}

fn cause_word(why: Cause) -> &'static [u8]
    ensures { result.now ≡ Spelling.cause_word why }
{
    match why {
        Cause::Timer => b" timer",
        Cause::Command => b" command",
    }
}

fn spell_power(t: Text, p: Power) -> Text
    ensures { said result ≡ cut (said t ++ power_words p) }
{
    match p {
        Power::Active => t.put_all(b" active none"),
        Power::Low(c, why) => spell_letter(t, c).put_all(cause_word(why)),
    }
}

fn spell_state(t: Text, s: State) -> Text
    ensures { said result ≡ cut (said t ++ state_words s) }
{
    let t = spell_power(t, s.power).put_number(s.idle.0);
    t.put_flag(s.stopped).put_flag(s.unsaved)
}

fn spell_target(t: Text, target: Target) -> Text
    ensures { said result ≡ cut (said t ++ target_word target) }
{
    match target {
        Target::Stop => t.put_all(b" stop"),
        Target::Start => t.put_all(b" start"),
        Target::GoTo(c) => spell_letter(t, c),
    }
}

fn spell_stage(t: Text, stage: Stage) -> Text
    ensures { said result ≡ cut (said t ++ stage_words stage) }
{
    match stage {
        Stage::Straight => t.put_flag(false).put_number(0),
        Stage::Flushing(n) => t.put_flag(true).put_number(n as u32),
    }
}

fn spell_request(t: Text, q: Request) -> Text
    ensures { said result ≡ cut (said t ++ request_words q) }
{
    spell_stage(spell_target(t, q.target).put_flag(q.immed), q.stage)
}

fn spell_slot(t: Text, s: Slot) -> Text
    ensures { said result ≡ cut (said t ++ slot_words s) }
{
    match s {
        Slot::Empty => t.put_all(b" -"),
        Slot::Waiting(q) => spell_request(t, q),
    }
}

fn spell_sense(t: Text, s: Sense) -> Text
    ensures { said result ≡ cut (said t ++ spaced_text s) }
{
    t.put_sense(s.key, s.asc, s.ascq, b' ', b' ')
}

fn spell_held(t: Text, h: Option<Failure>) -> Text
    ensures { said result ≡ cut (said t ++ held_words h) }
{
    match h {
        None => t.put_all(b" -"),
        Some(f) => spell_sense(t, requests::failure_sense(f)),
    }
}

fn spell_out(t: Text, out: Option<u32>) -> Text
    ensures { said result ≡ cut (said t ++ out_words out) }
{
    match out {
        None => t.put_all(b" -"),
        Some(host) => t.put_number(host),
    }
}

// A row of the table of counts.
fn spell_row(t: Text, row: [u32; 2]) -> Text
    ensures { said result ≡ cut (said t ++ row_words row) }
{
    t.put_number(row[0]).put_number(row[1])
}

fn spell_counts(t: Text, table: [[u32; 2]; 6]) -> Text
    ensures { said result ≡ cut (said t ++ counts_words table) }
{
    let t = spell_row(t, table[0]);
    let t = spell_row(t, table[1]);
    let t = spell_row(t, table[2]);
    let t = spell_row(t, table[3]);
    let t = spell_row(t, table[4]);
    spell_row(t, table[5])
}

// The line that sets a part.
#[tactic(auto, using(digits::proofs::Digits::one_by_one), unfolding(crate::specs::Spelling::part_text))]
fn spell(p: Part) -> Text
    ensures { said result ≡ cut (part_text p) }
{
    match p {
        Part::IsOf(edition) => spell_edition(Text::of(b"ed"), edition),
        Part::Settings(c, r) => spell_record(spell_letter(Text::of(b"c"), c), r),
        Part::Stands(s) => spell_state(Text::of(b"state"), s),
        Part::HasSlot(host, s) => spell_slot(Text::of(b"slot").put_number(host), s),
        Part::HasHeld(host, h) => spell_held(Text::of(b"held").put_number(host), h),
        Part::HasOut(out) => spell_out(Text::of(b"out"), out),
        Part::HasCounts(table) => spell_counts(Text::of(b"counts"), table),
    }
}

// `show`: "a `unit` block that would set it".
#[tactic(auto, unfolding(digits::specs::Sheets::wrote_all))]
pub fn show(u: Unit, out: &mut Sheet<'_>)
    ensures { written out.new ≡ wrote_all (written out.old) (shown u) }
{
    out.put_line(Text::of(b"unit"));
    out.put_line(spell(Part::IsOf(u.edition)));
    for place in 0..5 {
        out.put_line(spell(settings_of(u, place)));
    }
    out.put_line(spell(Part::Stands(state_of(u))));
    for host in 0..4 {
        out.put_line(spell(Part::HasSlot(host, unit::slot_of(u.slots, host))));
    }
    for holder in 0..4 {
        out.put_line(spell(Part::HasHeld(holder, unit::held_of(u.held, holder))));
    }
    out.put_line(spell(Part::HasOut(u.out)));
    out.put_line(spell(Part::HasCounts(transitions::table_of(u.drive.counts))));
    out.put_line(Text::of(b"end"));
}
