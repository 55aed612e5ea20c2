// What an accepted START STOP UNIT asks for, the drive's answer to a command, and why an operation fails. No unit is needed.
#![tactic(auto)]

ghost use Rattle.std.specs.Prelude.{◌≡◌};
ghost use Rattle.requests.specs.Requests.{failure_sense, supported_in, request_well_formed};

use conditions::Condition;
use drive::Record;
use senses::Sense;

// What an operation is to do.
#[derive(Clone, Copy, PartialEq, Eq)]
pub enum Target {
    Stop,
    Start,
    GoTo(Condition),
}

// How far it is: it sends no flush, or that many of its flushes have been answered (held at 255).
// Stays an enum of its own: Straight is a state with a name of its own, and not nothing.
#[derive(Clone, Copy, PartialEq, Eq)]
pub enum Stage {
    Straight,
    Flushing(u8),
}

// An accepted START STOP UNIT.
#[derive(Clone, Copy, PartialEq, Eq)]
pub struct Request {
    pub target: Target,
    pub immed: bool,
    pub stage: Stage,
}

// The drive's answer to a command.
#[derive(Clone, Copy, PartialEq, Eq)]
pub enum Reply {
    Good,
    Bad,
}

// Why an operation failed.
#[derive(Clone, Copy, PartialEq, Eq)]
pub enum Failure {
    CommandSequence,
    NotReady,
}

// A condition's support, as its record has it. Fixed places: no copy of the records is made to look into.
pub fn supported_in(records: [Record; 5], c: Condition) -> bool
    ensures { result ≡ supported_in records c }
{
    match c {
        Condition::IdleA => records[0].supported,
        Condition::IdleB => records[1].supported,
        Condition::IdleC => records[2].supported,
        Condition::StandbyY => records[3].supported,
        Condition::StandbyZ => records[4].supported,
    }
}

// A waiting request is one that START STOP UNIT accepts.
pub fn request_ok(records: [Record; 5], target: Target, stage: Stage) -> bool
    ensures { result ≡ request_well_formed records target stage }
{
    match (target, stage) {
        (Target::Stop, _) => true,
        (Target::Start, Stage::Straight) => true,
        (Target::Start, Stage::Flushing(_)) => false,
        (Target::GoTo(c), _) => supported_in(records, c),
    }
}

// The sense of a failed operation.
pub fn failure_sense(f: Failure) -> Sense
    ensures { result ≡ failure_sense f }
{
    match f {
        Failure::CommandSequence => Sense {
            key: 0x0B,
            asc: 0x2C,
            ascq: 0x00,
        },
        Failure::NotReady => Sense {
            key: 0x02,
            asc: 0x04,
            ascq: 0x02,
        },
    }
}
