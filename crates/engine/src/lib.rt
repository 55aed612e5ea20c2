// The calls on a unit that need no START STOP UNIT and no buffer: manufacture, EPC, ticks, the medium, resets.
#![tactic(auto)]

ghost use Rattle.std.specs.Prelude.{cond, ◌≡◌, ◌≤◌};
ghost use Rattle.drive.specs.Drives.{by_timer, fallen};
ghost use Rattle.engine.specs.Engine.{epc_effect, epc_refused, epc_outcome, manufacture_outcome, tick_outcome, read_effect, read_outcome, write_effect, write_outcome, power_on_effect, power_on_outcome, hard_reset_effect, reset_outcome};
ghost use Rattle.unit.specs.Units.{blank};

use conditions::Power;
use drive::{Edition, Made, Tenths};
use outcomes::Called;
use refusals::Refusal;
use registers::Registers;
use unit::Unit;

// Beside manufacture's refusal stands the blank unit of that edition, not what was asked for.
fn blank_if(refused: bool, edition: Edition, u: Unit) -> Unit
    ensures { result ≡ cond refused (blank edition) u }
{
    if refused {
        unit::blank_unit(edition)
    } else {
        u
    }
}

// A new unit of an edition: current = saved = default, Active, idle count 0, nothing waiting.
pub fn manufacture(edition: Edition, made: [Made; 5]) -> Called
    ensures { result ≡ manufacture_outcome edition made }
{
    let u = unit::made_unit(edition, made);
    let ok = unit::unit_ok(u);
    let v = refusals::record_verdict(ok);
    outcomes::settle(v, blank_if(v.is_err(), edition, u))
}

fn epc_effect(u: Unit, q: Registers) -> Unit
    ensures { result ≡ epc_effect q u }
{
    unit::with_drive(u, epc::perform(q, u.drive))
}

// An abort (10) restarts the idle count; any other refusal returns the record as it came.
fn epc_refused(u: Unit, r: Refusal) -> Unit
    ensures { result ≡ epc_refused r u }
{
    if r == Refusal::Aborted {
        unit::rest(u)
    } else {
        u
    }
}

// SET FEATURES EPC. What an accepted subcommand leaves is made only once it is accepted.
pub fn set_features(u: Unit, q: Registers) -> Called
    ensures { result ≡ epc_outcome u q }
{
    let ok = unit::unit_ok(u);
    let v = refusals::epc_verdict(
        ok,
        unit::is_out(u.out),
        epc::aborts(u.edition, q, u.drive.records),
    );
    let unit = match v {
        Ok(()) => epc_effect(u, q),
        Err(r) => epc_refused(u, r),
    };
    Called { answer: v, unit }
}

// With a command out, or refused, neither the count nor the power moves.
fn ticked_idle(still: bool, idle: Tenths, next: Tenths) -> Tenths
    ensures { result.0 ≡ cond still idle.0 next.0 }
{
    if still { idle } else { next }
}

fn ticked_power(still: bool, power: Power, asked: usize) -> Power
    requires { asked ≤ 5 }
    ensures { result ≡ cond still power (fallen (by_timer asked) power) }
{
    if still {
        power
    } else {
        drive::timed_power(asked, power)
    }
}

// A tenth of a second has passed. The timers are looked at before the record is tested: after the test, stopping early saves comparisons and no loads
// (docs/changes/05-search.md). The drive is read before the power is known: where the power stays, the compiler then sees that nothing is entered.
pub fn tick(u: Unit) -> Called
    ensures { result ≡ tick_outcome u }
{
    let records = u.drive.records;
    let next = drive::count(unit::largest_of(u), u.drive.idle);
    let asked = drive::depth_asked(records, next);
    let ok = unit::unit_ok(u);
    let d = u.drive;
    let power = d.power;
    let out = u.out;
    let v = refusals::record_verdict(ok);
    let still = v.is_err() | unit::is_out(out);
    let n = ticked_idle(still, u.drive.idle, next);
    let p = ticked_power(still, power, asked);
    outcomes::settle(v, unit::with_drive(u, drive::move_to(d, p, n)))
}

// "A read or write makes the unit Active, idle count 0;", unless the record is kept as it is.
fn read_unless(u: Unit, kept: bool) -> Unit
    ensures { result ≡ cond kept u (read_effect u) }
{
    unit::with_drive(u, drive::use_unless(u.drive, kept))
}

// "a write also sets the unsaved mark."
fn write_unless(u: Unit, kept: bool) -> Unit
    ensures { result ≡ cond kept u (write_effect u) }
{
    unit::with_marks(read_unless(u, kept), u.stopped, u.unsaved | !kept)
}

// A host has read from the medium.
pub fn read(u: Unit, host: u32) -> Called
    ensures { result ≡ read_outcome u host }
{
    let ok = unit::unit_ok(u);
    let v = refusals::medium_verdict(host, ok, unit::is_out(u.out), u.stopped);
    outcomes::settle(v, read_unless(u, v.is_err()))
}

// A host has written to the medium: what it wrote is unsaved until a flush is answered good.
pub fn write(u: Unit, host: u32) -> Called
    ensures { result ≡ write_outcome u host }
{
    let ok = unit::unit_ok(u);
    let v = refusals::medium_verdict(host, ok, unit::is_out(u.out), u.stopped);
    outcomes::settle(v, write_unless(u, v.is_err()))
}

// "no operation, command out, deferred sense, stopped or unsaved mark", unless the record is kept as it is.
fn power_on_unless(u: Unit, kept: bool) -> Unit
    ensures { result ≡ cond kept u (power_on_effect u) }
{
    let on = unit::with_drive(u, drive::power_on_unless(u.drive, kept));
    unit::without_hosts_unless(
        unit::with_marks(on, u.stopped & kept, u.unsaved & kept),
        kept,
    )
}

// The drive's power came on.
pub fn power_on(u: Unit) -> Called
    ensures { result ≡ power_on_outcome u }
{
    let ok = unit::unit_ok(u);
    let v = refusals::record_verdict(ok);
    outcomes::settle(v, power_on_unless(u, v.is_err()))
}

// "idle count 0; operations, command out and deferred senses go", unless the record is kept as it is.
fn hard_reset_unless(u: Unit, kept: bool) -> Unit
    ensures { result ≡ cond kept u (hard_reset_effect u) }
{
    unit::without_hosts_unless(unit::rest_unless(u, kept), kept)
}

pub fn hard_reset(u: Unit) -> Called
    ensures { result ≡ reset_outcome u }
{
    let ok = unit::unit_ok(u);
    let v = refusals::record_verdict(ok);
    outcomes::settle(v, hard_reset_unless(u, v.is_err()))
}

// A software reset is its own call with the effect of a hardware reset.
pub fn soft_reset(u: Unit) -> Called
    ensures { result ≡ reset_outcome u }
{
    hard_reset(u)
}
