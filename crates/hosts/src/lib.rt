// The lines of a set-up block that are the hosts', read: `slot`, `held` and `out`, each as the part of a record that it sets.
#![tactic(auto)]

ghost use Rattle.std.specs.Prelude.{◌≡◌};
ghost use Rattle.hosts.specs.Hosts.{is_none, stage_from, request_in, slot_in, spells, failure_in, held_in, out_in, slot_line, held_line, out_line};
ghost use Rattle.requests.specs.Requests.{failure_sense};

use asked::{Line, Part};
use conditions::Condition;
use requests::{Failure, Request, Stage, Target};
use unit::Slot;

// "`start` with FLUSH 1" and "PROGRESS not 0 where FLUSH is 0" are bad lines.
fn stage_from(target: Target, flushes: bool, answered: u8) -> Option<Stage>
    ensures { result ≡ stage_from target flushes answered }
{
    match (flushes, target) {
        (true, Target::Start) => None,
        (true, _) => Some(Stage::Flushing(answered)),
        (false, _) => (answered == 0).then_some(Stage::Straight),
    }
}

#[tactic(auto, unfolding(words::specs::Words::words, words::specs::Words::pieces, words::specs::Words::nonempty))]
fn request_in(line: &[u8]) -> Option<Request>
    ensures { result ≡ request_in line.now }
{
    let targets = [
        Target::Stop,
        Target::Start,
        Target::GoTo(Condition::IdleA),
        Target::GoTo(Condition::IdleB),
        Target::GoTo(Condition::IdleC),
        Target::GoTo(Condition::StandbyY),
        Target::GoTo(Condition::StandbyZ),
    ];
    let target = asked::kind_at(line, 2, b"stop start A B C Y Z", targets)?;
    let immed = words::flag_at(line, 3)?;
    let flushes = words::flag_at(line, 4)?;
    let answered = words::byte_at(line, 5)?;
    let stage = stage_from(target, flushes, answered)?;
    Some(Request {
        target,
        immed,
        stage,
    })
}

// Whether a word says that there is nothing.
#[tactic(auto, unfolding(words::specs::Words::words, words::specs::Words::pieces, words::specs::Words::nonempty))]
fn is_none(line: &[u8], k: usize) -> bool
    ensures { result ≡ is_none k line.now }
{
    words::name_at(line, k, b"-").is_some()
}

// What a slot holds.
fn slot_in(line: &[u8]) -> Option<Slot>
    ensures { result ≡ slot_in line.now }
{
    match (is_none(line, 2), words::word_count(line)) {
        (true, 3) => Some(Slot::Empty),
        (false, 6) => Some(Slot::Waiting(request_in(line)?)),
        _ => None,
    }
}

#[tactic(auto, unfolding(crate::specs::Hosts::slot_line))]
pub fn slot_line(line: &[u8]) -> Option<Line>
    ensures { result ≡ slot_line line.now }
{
    let host = words::number_at(line, 1, 3)?;
    Some(Line::Sets(Part::HasSlot(host, slot_in(line)?)))
}

// Whether a line's words are a failure's sense.
fn spells_failure(line: &[u8], f: Failure) -> bool
    ensures { result ≡ spells (failure_sense f) line.now }
{
    let sense = requests::failure_sense(f);
    (words::byte_at(line, 2) == Some(sense.key))
        & (words::byte_at(line, 3) == Some(sense.asc))
        & (words::byte_at(line, 4) == Some(sense.ascq))
}

// "a held sense that is no failure's" is a bad line.
fn failure_in(line: &[u8]) -> Option<Failure>
    ensures { result ≡ failure_in line.now }
{
    if spells_failure(line, Failure::NotReady) {
        Some(Failure::NotReady)
    } else if spells_failure(line, Failure::CommandSequence) {
        Some(Failure::CommandSequence)
    } else {
        None
    }
}

// What waits for a host: a failure's sense, or nothing.
fn held_in(line: &[u8]) -> Option<Option<Failure>>
    ensures { result ≡ held_in line.now }
{
    match (is_none(line, 2), words::word_count(line)) {
        (true, 3) => Some(None),
        (false, 5) => Some(Some(failure_in(line)?)),
        _ => None,
    }
}

#[tactic(auto, unfolding(crate::specs::Hosts::held_line))]
pub fn held_line(line: &[u8]) -> Option<Line>
    ensures { result ≡ held_line line.now }
{
    let host = words::number_at(line, 1, 3)?;
    Some(Line::Sets(Part::HasHeld(host, held_in(line)?)))
}

// The host whose command is out, or none.
fn out_in(line: &[u8]) -> Option<Option<u32>>
    ensures { result ≡ out_in line.now }
{
    if words::word_count(line) != 2 {
        return None;
    }
    if is_none(line, 1) {
        return Some(None);
    }
    Some(Some(words::number_at(line, 1, 0xFF)?))
}

#[tactic(auto, unfolding(crate::specs::Hosts::out_line))]
pub fn out_line(line: &[u8]) -> Option<Line>
    ensures { result ≡ out_line line.now }
{
    Some(Line::Sets(Part::HasOut(out_in(line)?)))
}
