// The CDB of START STOP UNIT (T10 07-485r3, 08-184): what its bytes ask for. No unit is needed.
#![tactic(auto)]

ghost use Rattle.std.specs.Prelude.{cond, not, ◌&&◌, ◌≡◌, Some, None};
ghost use Rattle.requests.specs.declared.Stage.TheVariants.{Straight, Flushing};
ghost use Rattle.requests.specs.declared.Target.TheVariants.{Stop, Start};
ghost use Rattle.cdb.specs.Cdb.{byte, immed, reserved_in_cdb, stop_or_start, as_start, idles, standbys, decided, wanted, stage_for, request_for};
ghost use Rattle.cdb.specs.Cdb;

use conditions::Condition;
use drive::Record;
use requests::{Request, Stage, Target};

pub fn byte_at(cdb: &[u8], k: usize) -> u8
    ensures { result ≡ byte k cdb.now }
{
    cdb.get(k).copied().unwrap_or(0)
}

// Byte 1 bit 0.
pub fn is_immed(cdb: &[u8]) -> bool
    ensures { result ≡ immed cdb.now }
{
    byte_at(cdb, 1) % 2 != 0
}

// Reserved bits of the CDB: byte 1 bits 7:1, byte 2, byte 3 bits 7:4, byte 4 bit 3.
fn reserved_in_cdb(cdb: &[u8]) -> bool
    ensures { result ≡ reserved_in_cdb cdb.now }
{
    let b = byte_at(cdb, 4);
    ((byte_at(cdb, 1) / 2) % 128 != 0)
        | (byte_at(cdb, 2) != 0)
        | ((byte_at(cdb, 3) / 16) % 16 != 0)
        | ((b / 8) % 2 != 0)
}

// Power condition 0h: stop or start.
fn stop_or_start(modifier: u8, ejects: bool, starts: bool) -> Option<Target>
    ensures { result ≡ stop_or_start modifier ejects starts }
{
    match modifier {
        0 => stop_start_bits(ejects, starts),
        1..=0xFF => None,
    }
}

fn stop_start_bits(ejects: bool, starts: bool) -> Option<Target>
    ensures { result ≡ cond ejects None (Some (cond starts Start Stop)) }
{
    if ejects {
        return None;
    }
    if starts {
        Some(Target::Start)
    } else {
        Some(Target::Stop)
    }
}

// Power condition 1h: as start.
fn as_start(modifier: u8) -> Option<Target>
    ensures { result ≡ as_start modifier }
{
    match modifier {
        0 => Some(Target::Start),
        1..=0xFF => None,
    }
}

// Power condition 2h: the three idle conditions.
fn idle(modifier: u8) -> Option<Target>
    ensures { result ≡ idles modifier }
{
    match modifier {
        0 => Some(Target::GoTo(Condition::IdleA)),
        1 => Some(Target::GoTo(Condition::IdleB)),
        2 => Some(Target::GoTo(Condition::IdleC)),
        3..=0xFF => None,
    }
}

// Power condition 3h: the two standby conditions.
fn standby(modifier: u8) -> Option<Target>
    ensures { result ≡ standbys modifier }
{
    match modifier {
        0 => Some(Target::GoTo(Condition::StandbyZ)),
        1 => Some(Target::GoTo(Condition::StandbyY)),
        2..=0xFF => None,
    }
}

// The decision runs over the power condition number.
fn decide(number: u8, modifier: u8, ejects: bool, starts: bool) -> Option<Target>
    ensures { result ≡ decided number modifier ejects starts }
{
    match number {
        0 => stop_or_start(modifier, ejects, starts),
        1 => as_start(modifier),
        2 => idle(modifier),
        3 => standby(modifier),
        4..=0xFF => None,
    }
}

pub fn read_wanted(cdb: &[u8]) -> Option<Target>
    ensures { result ≡ wanted cdb.now }
{
    let b = byte_at(cdb, 4);
    decide(
        (b / 16) % 16,
        byte_at(cdb, 3) % 16,
        (b / 2) % 2 != 0,
        b % 2 != 0,
    )
}

fn fits(records: [Record; 5], w: Option<Target>) -> bool
    ensures { result ≡ Cdb.fits records w }
{
    match w {
        None => false,
        Some(Target::Stop | Target::Start) => true,
        Some(Target::GoTo(c)) => requests::supported_in(records, c),
    }
}

pub fn is_listed(records: [Record; 5], cdb: &[u8], w: Option<Target>) -> bool
    ensures { result ≡ not (reserved_in_cdb cdb.now) && Cdb.fits records w }
{
    !reserved_in_cdb(cdb) & fits(records, w)
}

fn flushing_unless(without: bool) -> Stage
    ensures { result ≡ cond without Straight (Flushing 0) }
{
    if without {
        Stage::Straight
    } else {
        Stage::Flushing(0)
    }
}

// With NO_FLUSH the flush is left out; a start never sends one.
fn stage_for(t: Target, without: bool) -> Stage
    ensures { result ≡ stage_for t without }
{
    match t {
        Target::Stop => flushing_unless(without),
        Target::Start => Stage::Straight,
        Target::GoTo(_) => flushing_unless(without),
    }
}

pub fn request_for(t: Target, cdb: &[u8]) -> Request
    ensures { result ≡ request_for t cdb.now }
{
    let stage = stage_for(t, (byte_at(cdb, 4) / 4) % 2 != 0);
    Request {
        target: t,
        immed: is_immed(cdb),
        stage,
    }
}
