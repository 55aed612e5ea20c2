// REQUEST SENSE and the log pages, the calls that write into a lent buffer; and the transition counts by value.
#![tactic(auto)]

ghost use Rattle.std.specs.Prelude.{◌≡◌};
ghost use Rattle.readouts.specs.Readouts.{told_bytes, sense_outcome, log_outcome, counts_handed, transitions_outcome, new_page_outcome};
ghost use Rattle.unit.specs.Units.{held_of};

use conditions::Power;
use outcomes::Called;
use refusals::Refusal;
use requests::Failure;
use unit::Unit;

// A held deferred sense comes first, else the condition.
fn told_bytes(p: Power, h: Option<Failure>) -> [u8; 18]
    ensures { result ≡ told_bytes p h }
{
    match h {
        None => senses::sense_bytes(false, senses::sense_of_power(p)),
        Some(f) => senses::sense_bytes(true, requests::failure_sense(f)),
    }
}

fn told(u: Unit, host: u32) -> [u8; 18]
    ensures { result ≡ told_bytes u.drive.power (held_of u.held host) }
{
    told_bytes(u.drive.power, unit::held_of(u.held, host))
}

// REQUEST SENSE, into the lent buffer. A held sense that is told is dropped; nothing else of the record changes.
pub fn request_sense(u: Unit, host: u32, buffer: &mut [u8]) -> Called
    ensures { (result ≡ (sense_outcome u host buffer.old).called) × (buffer.new ≡ (sense_outcome u host buffer.old).buffer) }
{
    let ok = unit::unit_ok(u);
    let v = refusals::sense_verdict(buffer.len(), host, ok, unit::is_out(u.out));
    match v {
        Ok(()) => {
            let bytes = told(u, host);
            rows::copy_in(&bytes, buffer, 0);
            outcomes::settle(Ok(()), unit::with_held(u, host, None))
        }
        Err(r) => outcomes::settle(Err(r), u),
    }
}

// The Power Conditions log page, into the lent buffer. The record stays the caller's, unchanged.
pub fn log_page(u: Unit, buffer: &mut [u8]) -> Result<(), Refusal>
    ensures { (result ≡ (log_outcome u buffer.old).called.answer) × (buffer.new ≡ (log_outcome u buffer.old).buffer) }
{
    let ok = unit::unit_ok(u);
    refusals::page_verdict(512, buffer.len(), ok)?;
    let page = pages::log_page(u.drive.records);
    rows::copy_in(&page, buffer, 0);
    Ok(())
}

// A log page of published ACS-2, 0 or 1, into the lent buffer. The record stays the caller's, unchanged.
pub fn new_page(u: Unit, number: u32, buffer: &mut [u8]) -> Result<(), Refusal>
    ensures { (result ≡ (new_page_outcome u number buffer.old).called.answer) × (buffer.new ≡ (new_page_outcome u number buffer.old).buffer) }
{
    let ok = unit::unit_ok(u);
    let lacking = published::lacks_page(u.edition, number);
    refusals::new_page_verdict(buffer.len(), ok, lacking)?;
    let page = published::descriptor_page(number, u.drive.records);
    rows::copy_in(&page, buffer, 0);
    Ok(())
}

// How often the unit went into each condition: six rows in falling power, Active first, by timer and by command or use.
pub fn transition_counts(u: Unit) -> [[u32; 2]; 6]
    ensures { result ≡ counts_handed u }
{
    transitions::table_of(u.drive.counts)
}

// The Power Condition Transitions log page, into the lent buffer. The record stays the caller's, unchanged.
pub fn transitions_page(u: Unit, buffer: &mut [u8]) -> Result<(), Refusal>
    ensures { (result ≡ (transitions_outcome u buffer.old).called.answer) × (buffer.new ≡ (transitions_outcome u buffer.old).buffer) }
{
    let ok = unit::unit_ok(u);
    refusals::page_verdict(52, buffer.len(), ok)?;
    let page = transitions::page_of(transition_counts(u));
    rows::copy_in(&page, buffer, 0);
    Ok(())
}
