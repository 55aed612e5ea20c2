// Each call made over the face, and the line that it prints.
#![tactic(auto)]

ghost use Rattle.std.specs.Prelude.{map, ◌≡◌};
ghost use Rattle.drive.specs.Drives.{maker_of};
ghost use Rattle.readouts.specs.Readouts.{sense_outcome};
ghost use Rattle.bridge.specs.Bridge.{start_stop_outcome};
ghost use Rattle.exchange.specs.Exchange.{next_outcome, answer_outcome};
ghost use Rattle.words.specs.Lines.{line_in};
ghost use Rattle.digits.specs.Sheets.{written, wrote, wrote_all, line_text};
ghost use Rattle.digits.specs.Texts.{said, cut};
ghost use Rattle.commands.specs.Commands.{cdb_in};
ghost use Rattle.findings.specs.Findings.{faults_pieces, record_pieces};
ghost use Rattle.phrases.specs.Phrases.{called_text, accepted_text, sent_text, progress_text};
ghost use Rattle.answers.specs.Answers;
ghost use Rattle.answers.specs.Answers.{plain_outcome, unfilled, filled_pieces, filled_response, page_outcome, call_response};
ghost use Rattle.answers.specs.Answers.{replaced_by, planned_outcome, made_response};

use asked::{CallLine, PlainCall};
use conditions::Condition;
use digits::{Sheet, Text};
use drive::{Made, Record};
use outcomes::Called;
use refusals::Refusal;
use requests::Reply;
use unit::Unit;

// The unit after a call, and what is said of it.
#[derive(Clone, Copy)]
pub struct Told {
    pub unit: Unit,
    pub text: Text,
}

// The log pages; those of published ACS-2 by their number.
#[derive(Clone, Copy)]
pub enum Page {
    Conditions,
    Transitions,
    Descriptors(u32),
}

// N single ticks; stops at the first refusal.
fn ticks(u: Unit, n: u32) -> Called
    ensures { result ≡ Answers.ticks n u }
{
    let mut called = Called {
        answer: Ok(()),
        unit: u,
    };
    for _ in 0..n {
        called = power::tick(called.unit);
        if called.answer.is_err() {
            break;
        }
    }
    called
}

fn called_by(u: Unit, call: PlainCall) -> Called
    ensures { result ≡ plain_outcome u call }
{
    match call {
        PlainCall::Tick(n) => ticks(u, n),
        PlainCall::Epc(q) => power::set_features(u, q),
        PlainCall::Read(host) => power::read(u, host),
        PlainCall::Write(host) => power::write(u, host),
        PlainCall::PowerOn => power::power_on(u),
        PlainCall::HardReset => power::hard_reset(u),
        PlainCall::SoftReset => power::soft_reset(u),
    }
}

fn plain(u: Unit, call: PlainCall) -> Told
    ensures { (result.unit ≡ (plain_outcome u call).unit) × (said result.text ≡ cut (called_text (plain_outcome u call).answer)) }
{
    let c = called_by(u, call);
    Told {
        unit: c.unit,
        text: phrases::called(c.answer),
    }
}

fn start_stop(u: Unit, host: u32, text: &[u8]) -> Told
    ensures { (result.unit ≡ (start_stop_outcome u host (cdb_in (line_in text.now))).unit)
        × (said result.text ≡ cut (accepted_text (start_stop_outcome u host (cdb_in (line_in text.now))).answer)) }
{
    let s = match commands::cdb(text) {
        Some(cdb) => power::start_stop_unit(u, host, &cdb.bytes[..cdb.len]),
        None => power::start_stop_unit(u, host, &[]),
    };
    Told {
        unit: s.unit,
        text: phrases::accepted(s.answer),
    }
}

fn next(u: Unit, host: u32) -> Told
    ensures { (result.unit ≡ (next_outcome u host).unit) × (said result.text ≡ cut (sent_text (next_outcome u host).answer)) }
{
    let a = power::next_command(u, host);
    Told {
        unit: a.unit,
        text: phrases::sent(a.answer),
    }
}

fn answer(u: Unit, host: u32, reply: Reply) -> Told
    ensures { (result.unit ≡ (answer_outcome u host reply).unit) × (said result.text ≡ cut (progress_text (answer_outcome u host reply).answer)) }
{
    let a = power::answer(u, host, reply);
    Told {
        unit: a.unit,
        text: phrases::progressed(a.answer),
    }
}

// Writes what is said as a line, and answers the unit.
fn put_told(t: Told, out: &mut Sheet<'_>) -> Unit
    ensures { (result ≡ t.unit) × (written out.new ≡ wrote (written out.old) (line_text (said t.text))) }
{
    out.put_line(t.text);
    t.unit
}

// An answer, the buffer as the call left it, and the line's end.
#[tactic(auto, unfolding(digits::specs::Sheets::wrote_all))]
fn put_filled(a: Result<(), Refusal>, buffer: &[u8], out: &mut Sheet<'_>)
    ensures { written out.new ≡ wrote_all (written out.old) (filled_pieces a buffer.now) }
{
    out.put_text(phrases::before_bytes(a));
    out.put_bytes(buffer);
    out.put_line(Text::empty());
}

// The most that `sense`, `log`, `trans` and `page` lend, as it is before the call.
fn unwritten() -> [u8; 1024]
    ensures { result ≡ unfilled 1024 }
{
    [0xA5u8; 1024]
}

fn sense(u: Unit, host: u32, len: u32, out: &mut Sheet<'_>) -> Unit
    ensures { (result ≡ (filled_response (sense_outcome u host (unfilled len))).unit)
        × (written out.new ≡ wrote_all (written out.old) (filled_response (sense_outcome u host (unfilled len))).pieces) }
{
    let mut buffer = unwritten();
    let n = asked::buffer_len(len);
    let c = power::request_sense(u, host, &mut buffer[..n]);
    put_filled(c.answer, &buffer[..n], out);
    c.unit
}

fn read_page(u: Unit, page: Page, buffer: &mut [u8]) -> Result<(), Refusal>
    ensures { (result ≡ (page_outcome page u buffer.old).called.answer) × (buffer.new ≡ (page_outcome page u buffer.old).buffer) }
{
    match page {
        Page::Conditions => power::log_page(u, buffer),
        Page::Transitions => power::transitions_page(u, buffer),
        Page::Descriptors(number) => power::new_page(u, number, buffer),
    }
}

// Reading a page changes no record.
fn log(u: Unit, page: Page, len: u32, out: &mut Sheet<'_>) -> Unit
    ensures { (result ≡ (filled_response (page_outcome page u (unfilled len))).unit)
        × (written out.new ≡ wrote_all (written out.old) (filled_response (page_outcome page u (unfilled len))).pieces) }
{
    let mut buffer = unwritten();
    let n = asked::buffer_len(len);
    let a = read_page(u, page, &mut buffer[..n]);
    put_filled(a, &buffer[..n], out);
    u
}

// Another maker's page is no part of the record.
fn page_faults(u: Unit, len: u32, text: &[u8], out: &mut Sheet<'_>) -> Unit
    ensures { (result ≡ u) × (written out.new ≡ wrote_all (written out.old) (faults_pieces len text.now)) }
{
    findings::put_faults(len, text, out);
    u
}

fn page_record(u: Unit, c: Condition, len: u32, text: &[u8], out: &mut Sheet<'_>) -> Unit
    ensures { (result ≡ u) × (written out.new ≡ wrote_all (written out.old) (record_pieces c len text.now)) }
{
    findings::put_record(c, len, text, out);
    u
}

// Makes a call, writes its line and answers the unit after it; `text` has the bytes of START STOP UNIT, and the pairs of another maker's page.
pub fn make(u: Unit, call: CallLine, text: &[u8], out: &mut Sheet<'_>) -> Unit
    ensures { (result ≡ (call_response u call text.now).unit) × (written out.new ≡ wrote_all (written out.old) (call_response u call text.now).pieces) }
{
    match call {
        CallLine::Plain(call) => put_told(plain(u, call), out),
        CallLine::StartStop(host) => put_told(start_stop(u, host, text), out),
        CallLine::Next(host) => put_told(next(u, host), out),
        CallLine::Answer(host, reply) => put_told(answer(u, host, reply), out),
        CallLine::Sense(host, len) => sense(u, host, len, out),
        CallLine::Log(len) => log(u, Page::Conditions, len, out),
        CallLine::Transitions(len) => log(u, Page::Transitions, len, out),
        CallLine::NewPage(number, len) => log(u, Page::Descriptors(number), len, out),
        CallLine::PageFaults(len) => page_faults(u, len, text, out),
        CallLine::PageRecord(c, len) => page_record(u, c, len, text, out),
    }
}

// The new unit; beside a refusal "the record stays as it was".
fn replaced_by(c: Called, u: Unit) -> Unit
    ensures { result ≡ replaced_by c u }
{
    if c.answer.is_ok() { c.unit } else { u }
}

// What the maker says of a condition.
fn maker_of(r: Record) -> Made
    ensures { result ≡ maker_of r }
{
    Made {
        supported: r.supported,
        saveable: r.saveable,
        changeable: r.changeable,
        recovery: r.recovery,
        default: r.default,
    }
}

fn makers_of(records: [Record; 5]) -> [Made; 5]
    ensures { result ≡ map maker_of records }
{
    records.map(maker_of)
}

fn as_planned(planned: Unit) -> Called
    ensures { result ≡ planned_outcome planned }
{
    power::manufacture(planned.edition, makers_of(planned.drive.records))
}

fn made_by(u: Unit, planned: Unit) -> Told
    ensures { (result.unit ≡ replaced_by (planned_outcome planned) u) × (said result.text ≡ cut (called_text (planned_outcome planned).answer)) }
{
    let c = as_planned(planned);
    Told {
        unit: replaced_by(c, u),
        text: phrases::called(c.answer),
    }
}

// Manufactures the planned unit in the place of `u`, writes the line of that and answers the unit after it.
pub fn manufacture(u: Unit, planned: Unit, out: &mut Sheet<'_>) -> Unit
    ensures { (result ≡ (made_response u planned).unit) × (written out.new ≡ wrote_all (written out.old) (made_response u planned).pieces) }
{
    put_told(made_by(u, planned), out)
}
