// An operation's commands, the answers that hosts and the drive give about it, and its end report. No unit is needed.
#![tactic(auto)]

ghost use Rattle.std.specs.Prelude.{cond, ◌≡◌};
ghost use Rattle.operations.specs.Operations.{accepted_as, registers_of, last_of, due_at, due_from, is_flush, one_more, flushes_of, report_good, report_failed, parked_in, reached, is_stop, is_good, failure_of, flush_counted};
ghost use Rattle.operations.specs.declared.Status.TheVariants.{NoStatus};

use conditions::{Cause, Condition, Power};
use drive::Record;
use registers::Registers;
use requests::{Failure, Reply, Request, Stage, Target};
use senses::Sense;

// The command that an operation is due to send.
#[derive(Clone, Copy, PartialEq, Eq)]
pub enum Due {
    Flush,
    StandbyImmediate,
    ReadVerify,
    EpcGoTo(Condition),
}

// START STOP UNIT accepted: GOOD is due at once, or with the last answer.
#[derive(Clone, Copy)]
pub enum Acceptance {
    GoodDue,
    Pending,
}

// The status that an operation's end gives its host; with IMMED it had GOOD on acceptance.
#[derive(Clone, Copy, PartialEq, Eq)]
pub enum Status {
    NoStatus,
    GoodStatus,
    CheckCondition,
}

// The end report. Beside no status, a sense is one that is now held.
#[derive(Clone, Copy)]
pub struct Report {
    pub status: Status,
    pub sense: Option<Sense>,
    pub flushes: u8,
}

// What an answer leaves of its operation: more to send, or its end.
// Stays an enum of its own: More is a state with a name of its own, and not nothing.
#[derive(Clone, Copy)]
pub enum Progress {
    More,
    Ended(Report),
}

pub fn registers_of(d: Due) -> Registers
    ensures { result ≡ registers_of d }
{
    match d {
        Due::Flush => registers::ata_command(0xE7, 0, 0, 0),
        Due::StandbyImmediate => registers::ata_command(0xE0, 0, 0, 0),
        Due::ReadVerify => registers::ata_command(0x40, 0, 1, 0),
        Due::EpcGoTo(c) => registers::ata_command(0xEF, 0x4A, registers::count_code(c), 1),
    }
}

// The last command of an operation.
fn last_of(t: Target) -> Due
    ensures { result ≡ last_of t }
{
    match t {
        Target::Stop => Due::StandbyImmediate,
        Target::Start => Due::ReadVerify,
        Target::GoTo(c) => Due::EpcGoTo(c),
    }
}

// A flushing operation flushes first, and again for as long as something is unsaved.
fn due_at(stage: Stage, unsaved: bool, last: Due) -> Due
    ensures { result ≡ due_at stage unsaved last }
{
    match stage {
        Stage::Straight => last,
        Stage::Flushing(answered) => {
            if (answered == 0) | unsaved {
                Due::Flush
            } else {
                last
            }
        }
    }
}

// The command due from an operation.
pub fn due_from(unsaved: bool, q: Request) -> Due
    ensures { result ≡ due_from unsaved q }
{
    due_at(q.stage, unsaved, last_of(q.target))
}

pub fn is_flush(d: Due) -> bool
    ensures { result ≡ is_flush d }
{
    matches!(d, Due::Flush)
}

// The count of flushes answered stays at 255.
pub fn one_more(n: u8) -> u8
    ensures { result ≡ one_more n }
{
    n.saturating_add(1)
}

pub fn flushes_of(stage: Stage) -> u8
    ensures { result ≡ flushes_of stage }
{
    match stage {
        Stage::Straight => 0,
        Stage::Flushing(answered) => answered,
    }
}

// A flush that is answered is counted.
pub fn flush_counted(q: Request) -> Request
    ensures { result ≡ flush_counted q }
{
    Request {
        stage: Stage::Flushing(one_more(flushes_of(q.stage))),
        ..q
    }
}

// With IMMED the status was given on acceptance.
fn status_at_end(immed: bool, s: Status) -> Status
    ensures { result ≡ cond immed NoStatus s }
{
    if immed { Status::NoStatus } else { s }
}

pub fn report_good(immed: bool, flushes: u8) -> Report
    ensures { result ≡ report_good immed flushes }
{
    Report {
        status: status_at_end(immed, Status::GoodStatus),
        sense: None,
        flushes,
    }
}

pub fn report_failed(immed: bool, f: Failure, flushes: u8) -> Report
    ensures { result ≡ report_failed immed f flushes }
{
    Report {
        status: status_at_end(immed, Status::CheckCondition),
        sense: Some(requests::failure_sense(f)),
        flushes,
    }
}

pub fn accepted_as(immediate: bool) -> Acceptance
    ensures { result ≡ accepted_as immediate }
{
    if immediate {
        Acceptance::GoodDue
    } else {
        Acceptance::Pending
    }
}

pub fn is_good(reply: Reply) -> bool
    ensures { result ≡ is_good reply }
{
    reply == Reply::Good
}

// What a failed operation says, by what it was to do: a spindle that does not turn is not ready.
// Stays a match: a table of the papers, a case for each target.
pub fn failure_of(t: Target) -> Failure
    ensures { result ≡ failure_of t }
{
    match t {
        Target::Stop => Failure::CommandSequence,
        Target::Start => Failure::NotReady,
        Target::GoTo(_) => Failure::CommandSequence,
    }
}

// A stop parks in Standby_y if its current flag is set, else in Standby_z.
fn parked_in(records: [Record; 5]) -> Condition
    ensures { result ≡ parked_in records }
{
    if records[3].current.enabled {
        Condition::StandbyY
    } else {
        Condition::StandbyZ
    }
}

pub fn reach(records: [Record; 5], t: Target) -> Power
    ensures { result ≡ reached records t }
{
    match t {
        Target::Stop => Power::Low(parked_in(records), Cause::Command),
        Target::Start => Power::Active,
        Target::GoTo(c) => Power::Low(c, Cause::Command),
    }
}

pub fn is_stop(t: Target) -> bool
    ensures { result ≡ is_stop t }
{
    matches!(t, Target::Stop)
}
