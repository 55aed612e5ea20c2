// What is said of each answer of a call.
// Put piece by piece, not by Display and `write!`: `write!` promises what it wrote only where it answers Ok, and no clause of std says that it does.
#![tactic(auto, using(digits::proofs::Digits::one_by_one))]

ghost use Rattle.std.specs.Prelude.{◌++◌, ◌≡◌};
ghost use Rattle.digits.specs.Texts.{said, cut};
ghost use Rattle.phrases.specs.Phrases;
ghost use Rattle.phrases.specs.Phrases.{slashed_text, refused_text, called_text, accepted_text, registers_text, sent_text};
ghost use Rattle.phrases.specs.Phrases.{quiet_text, end_head, end_sense, end_text, progress_text, before_bytes};

use digits::Text;
use operations::{Acceptance, Progress, Report, Status};
use refusals::Refusal;
use registers::Registers;
use senses::Sense;

fn put_sense(t: Text, s: Sense) -> Text
    ensures { said result ≡ cut (said t ++ slashed_text s) }
{
    t.put_sense(s.key, s.asc, s.ascq, b' ', b'/')
}

fn put_due(t: Text, s: Option<Sense>) -> Text
    ensures { said result ≡ cut (said t ++ Phrases.due_text s) }
{
    match s {
        None => t.put_all(b" -"),
        Some(sense) => put_sense(t, sense),
    }
}

fn refused(r: Refusal) -> Text
    ensures { said result ≡ cut (refused_text r) }
{
    let number = Text::of(b"refused ").put_decimal(refusals::number(r));
    put_due(number, refusals::sense_of(r))
}

pub fn called(a: Result<(), Refusal>) -> Text
    ensures { said result ≡ cut (called_text a) }
{
    match a {
        Ok(()) => Text::of(b"ok"),
        Err(r) => refused(r),
    }
}

pub fn accepted(a: Result<Acceptance, Refusal>) -> Text
    ensures { said result ≡ cut (accepted_text a) }
{
    match a {
        Ok(Acceptance::GoodDue) => Text::of(b"ok good"),
        Ok(Acceptance::Pending) => Text::of(b"ok pending"),
        Err(r) => refused(r),
    }
}

fn put_registers(t: Text, q: Registers) -> Text
    ensures { said result ≡ cut (said t ++ registers_text q) }
{
    let registers = t.put_number(q.command as u32).put_number(q.feature as u32);
    registers.put_number(q.count as u32).put_number(q.lba)
}

pub fn sent(n: Result<Registers, Refusal>) -> Text
    ensures { said result ≡ cut (sent_text n) }
{
    match n {
        Ok(q) => put_registers(Text::of(b"ok"), q),
        Err(r) => refused(r),
    }
}

// With no status due, a sense is one that is now held.
fn quiet_or_held(s: Option<Sense>) -> Text
    ensures { said result ≡ cut (quiet_text s) }
{
    match s {
        None => Text::of(b"ok end quiet"),
        Some(_) => Text::of(b"ok end held"),
    }
}

fn end_head(status: Status, s: Option<Sense>) -> Text
    ensures { said result ≡ cut (end_head status s) }
{
    match status {
        Status::NoStatus => quiet_or_held(s),
        Status::GoodStatus => Text::of(b"ok end good"),
        Status::CheckCondition => Text::of(b"ok end fail"),
    }
}

fn put_end_sense(t: Text, s: Option<Sense>) -> Text
    ensures { said result ≡ cut (said t ++ end_sense s) }
{
    match s {
        None => t,
        Some(sense) => put_sense(t, sense),
    }
}

fn ended(r: Report) -> Text
    ensures { said result ≡ cut (end_text r) }
{
    let head = end_head(r.status, r.sense);
    put_end_sense(head, r.sense).put_number(r.flushes as u32)
}

pub fn progressed(p: Result<Progress, Refusal>) -> Text
    ensures { said result ≡ cut (progress_text p) }
{
    match p {
        Ok(Progress::More) => Text::of(b"ok more"),
        Ok(Progress::Ended(r)) => ended(r),
        Err(r) => refused(r),
    }
}

pub fn before_bytes(a: Result<(), Refusal>) -> Text
    ensures { said result ≡ cut (before_bytes a) }
{
    match a {
        Ok(()) => Text::of(b"ok "),
        Err(r) => refused(r).put_all(b" buf "),
    }
}
