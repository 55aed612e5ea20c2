// START STOP UNIT for four hosts over one ATA drive (T10 07-485r3): a CDB is accepted, and its operation waits.
#![tactic(auto)]

ghost use Rattle.std.specs.Prelude.{cond, ◌≡◌};
ghost use Rattle.bridge.specs.Bridge.{start_stop_outcome};
ghost use Rattle.bridge.specs.Inner.{slot_for, acceptance_of};
ghost use Rattle.unit.specs.Units.{with_slot, rested};

use operations::Acceptance;
use refusals::Refusal;
use requests::Target;
use unit::{Slot, Unit};

#[derive(Clone, Copy)]
pub struct StartStopped {
    pub answer: Result<Acceptance, Refusal>,
    pub unit: Unit,
}

// What the CDB puts into the host's slot.
fn slot_for(w: Option<Target>, cdb: &[u8]) -> Slot
    ensures { result ≡ slot_for w cdb.now }
{
    match w {
        None => Slot::Empty,
        Some(t) => Slot::Waiting(cdb::request_for(t, cdb)),
    }
}

// The operation waits in the host's slot and the idle count restarts, unless the record is kept as it is.
fn wait_unless(u: Unit, kept: bool, host: u32, s: Slot) -> Unit
    ensures { result ≡ cond kept u (with_slot host s (rested u)) }
{
    unit::with_slot_unless(unit::rest_unless(u, kept), kept, host, s)
}

fn acceptance_of(v: Result<(), Refusal>, immediate: bool) -> Result<Acceptance, Refusal>
    ensures { result ≡ acceptance_of v immediate }
{
    v?;
    Ok(operations::accepted_as(immediate))
}

// START STOP UNIT.
pub fn start_stop_unit(u: Unit, host: u32, cdb: &[u8]) -> StartStopped
    ensures { result ≡ start_stop_outcome u host cdb.now }
{
    let ok = unit::unit_ok(u);
    let own = unit::is_waiting(unit::slot_of(u.slots, host));
    let w = cdb::read_wanted(cdb);
    let listed = cdb::is_listed(u.drive.records, cdb, w);
    let v = refusals::start_stop_verdict(
        cdb.len(),
        host,
        ok,
        unit::is_out(u.out),
        own,
        cdb::byte_at(cdb, 0),
        listed,
    );
    let s = slot_for(w, cdb);
    // Kept by a number; and where nothing is listed, which the verdict rules out.
    let kept = v.is_err() | !unit::is_waiting(s);
    StartStopped {
        answer: acceptance_of(v, cdb::is_immed(cdb)),
        unit: wait_unless(u, kept, host, s),
    }
}
