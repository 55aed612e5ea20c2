// A host's next command, and the drive's answer to it (T10 07-485r3, 05-226r3).
#![tactic(auto)]

ghost use Rattle.std.specs.Prelude.{cond, ◌≡◌, ℕ, Err, Some, None};
ghost use Rattle.exchange.specs.Exchange.{next_effect, next_outcome, answer_on, answer_settled, answer_outcome};
ghost use Rattle.exchange.specs.Answered.{flushed_well, failed, succeeded, flush_answered, last_answered, answered_for};
ghost use Rattle.exchange.specs.Inner.{due_in, next_of, held_by, left};
ghost use Rattle.unit.specs.Units.{slot_of};

use conditions::Power;
use operations::Progress;
use refusals::Refusal;
use registers::Registers;
use requests::{Failure, Reply, Request};
use unit::{Slot, Unit};

#[derive(Clone, Copy)]
pub struct Asked {
    pub answer: Result<Registers, Refusal>,
    pub unit: Unit,
}

#[derive(Clone, Copy)]
pub struct Replied {
    pub answer: Result<Progress, Refusal>,
    pub unit: Unit,
}

// The command is out for the host, unless the record is kept as it is.
fn next_unless(u: Unit, kept: bool, host: u32) -> Unit
    ensures { result ≡ cond kept u (next_effect host u) }
{
    unit::with_out_unless(unit::rest_unless(u, kept), kept, Some(host))
}

// The command due from a waiting operation.
fn due_in(unsaved: bool, s: Slot) -> Result<Registers, Refusal>
    ensures { result ≡ due_in unsaved s }
{
    match s {
        Slot::Empty => Err(Refusal::HasNone),
        Slot::Waiting(q) => Ok(operations::registers_of(operations::due_from(unsaved, q))),
    }
}

// The verdict's answer: its number, or the command due.
fn next_of(v: Result<(), Refusal>, unsaved: bool, s: Slot) -> Result<Registers, Refusal>
    ensures { result ≡ next_of v unsaved s }
{
    v?;
    due_in(unsaved, s)
}

// A host asks for its operation's next command, which is then out until the answer.
pub fn next_command(u: Unit, host: u32) -> Asked
    ensures { result ≡ next_outcome u host }
{
    let ok = unit::unit_ok(u);
    let s = unit::slot_of(u.slots, host);
    let waiting = unit::is_waiting(s);
    let v = refusals::next_verdict(host, ok, unit::is_out(u.out), waiting);
    Asked {
        answer: next_of(v, u.unsaved, s),
        unit: next_unless(u, v.is_err() | !waiting, host),
    }
}

// What an answer leaves, and what it tells. Where it is not taken, idle count, slot and what is out stay; power and marks are given either way.
// `held` is a sense to hold now; with none, what the host holds stays.
#[derive(Clone, Copy)]
struct After {
    taken: bool,
    power: Power,
    stopped: bool,
    unsaved: bool,
    slot: Slot,
    held: Option<Failure>,
    answer: Result<Progress, Refusal>,
}

// A good flush: nothing is unsaved, and the operation goes on.
fn flushed_well(u: Unit, q: Request) -> After
    ensures { (host : ℕ) → left u host result ≡ flushed_well u host q }
{
    After {
        taken: true,
        power: Power::Active,
        stopped: u.stopped,
        unsaved: false,
        slot: Slot::Waiting(operations::flush_counted(q)),
        held: None,
        answer: Ok(Progress::More),
    }
}

// With IMMED a failure is held for the host's REQUEST SENSE.
fn held_if(immed: bool, f: Failure) -> Option<Failure>
    ensures { result ≡ cond immed (Some f) None }
{
    immed.then_some(f)
}

// The operation is over and failed: Active, marks as before.
fn fail(u: Unit, q: Request, flushes: u8) -> After
    ensures { (host : ℕ) → left u host result ≡ failed u host q flushes }
{
    let f = operations::failure_of(q.target);
    After {
        taken: true,
        power: Power::Active,
        stopped: u.stopped,
        unsaved: u.unsaved,
        slot: Slot::Empty,
        held: held_if(q.immed, f),
        answer: Ok(Progress::Ended(operations::report_failed(q.immed, f, flushes))),
    }
}

// The last command went well: the unit is where the operation was to take it.
fn succeed(u: Unit, q: Request) -> After
    ensures { (host : ℕ) → left u host result ≡ succeeded u host q }
{
    After {
        taken: true,
        power: operations::reach(u.drive.records, q.target),
        stopped: operations::is_stop(q.target),
        unsaved: u.unsaved,
        slot: Slot::Empty,
        held: None,
        answer: Ok(Progress::Ended(operations::report_good(
            q.immed,
            operations::flushes_of(q.stage),
        ))),
    }
}

fn flush_answered(u: Unit, q: Request, reply: Reply) -> After
    ensures { (host : ℕ) → left u host result ≡ flush_answered u host q reply }
{
    if operations::is_good(reply) {
        flushed_well(u, q)
    } else {
        fail(u, q, operations::one_more(operations::flushes_of(q.stage)))
    }
}

fn last_answered(u: Unit, q: Request, reply: Reply) -> After
    ensures { (host : ℕ) → left u host result ≡ last_answered u host q reply }
{
    if operations::is_good(reply) {
        succeed(u, q)
    } else {
        fail(u, q, operations::flushes_of(q.stage))
    }
}

// The command out is the one due: neither slot nor unsaved mark changes while it is out.
fn answered_for(u: Unit, q: Request, reply: Reply) -> After
    ensures { (host : ℕ) → left u host result ≡ answered_for u host q reply }
{
    if operations::is_flush(operations::due_from(u.unsaved, q)) {
        flush_answered(u, q, reply)
    } else {
        last_answered(u, q, reply)
    }
}

// Refused: all stays.
fn refuse(u: Unit, r: Refusal) -> After
    ensures { (host : ℕ) → left u host result ≡ record { answer = Err r; unit = u } }
{
    After {
        taken: false,
        power: u.drive.power,
        stopped: u.stopped,
        unsaved: u.unsaved,
        slot: Slot::Empty,
        held: None,
        answer: Err(r),
    }
}

fn answer_on(u: Unit, reply: Reply, s: Slot) -> After
    ensures { (host : ℕ) → left u host result ≡ answer_on u host reply s }
{
    match s {
        Slot::Empty => refuse(u, Refusal::HasNone),
        Slot::Waiting(q) => answered_for(u, q, reply),
    }
}

// By the verdict; `s` is the host's slot.
fn answer_settled(u: Unit, reply: Reply, s: Slot, v: Result<(), Refusal>) -> After
    ensures { (host : ℕ) → slot_of u.slots host ≡ s → left u host result ≡ answer_settled u host reply v }
{
    match v {
        Ok(()) => answer_on(u, reply, s),
        Err(r) => refuse(u, r),
    }
}

// "a failure is held as the host's deferred sense, replacing an older one"; with none, what is held stays.
fn hold(u: Unit, host: u32, h: Option<Failure>) -> Unit
    ensures { result ≡ held_by u host h }
{
    match h {
        None => u,
        Some(f) => unit::with_held(u, host, Some(f)),
    }
}

// The record that an answer leaves, built once. "Every answer sets idle count 0"; the command is no longer out.
fn leave(u: Unit, host: u32, a: After) -> Replied
    ensures { result ≡ left u host a }
{
    let kept = !a.taken;
    let d = u.drive;
    let power = a.power;
    let slot = a.slot;
    let held = a.held;
    let answer = a.answer;
    let idle = d.idle;
    let moved = unit::with_drive(u, drive::move_to(d, power, drive::zero_unless(kept, idle)));
    let marked = unit::with_marks(moved, a.stopped, a.unsaved);
    let waits = unit::with_slot_unless(marked, kept, host, slot);
    Replied {
        answer,
        unit: unit::with_out_unless(hold(waits, host, held), kept, None),
    }
}

// The drive answered the host's command.
pub fn answer(u: Unit, host: u32, reply: Reply) -> Replied
    ensures { result ≡ answer_outcome u host reply }
{
    let ok = unit::unit_ok(u);
    let v = refusals::answer_verdict(host, ok, unit::is_out_for(host, u.out));
    leave(
        u,
        host,
        answer_settled(u, reply, unit::slot_of(u.slots, host), v),
    )
}
