// The lines that make a call, read: each as the call that it asks for, if it is as the format says.
#![tactic(auto)]

ghost use Rattle.std.specs.Prelude.{[], ◌≡◌, ◌≤◌, MatchOption, is_some, take};
ghost use Rattle.words.specs.Lines.{line_in};
ghost use Rattle.commands.specs.Commands.{only_number, tick_line, epc_line, read_line, write_line, reset_line, start_stop_line, next_line, answer_line, sense_line, log_line, transitions_line, new_page_line, make_line, cdb_in, is_cdb};

use asked::{CallLine, Line, PlainCall};
use registers::Registers;
use requests::Reply;

// START STOP UNIT's bytes: the first `len` of these. Stays a length beside them: the layer has no heap, so the bytes lie in fixed memory.
#[derive(Clone, Copy)]
pub struct CdbBytes {
    pub bytes: [u8; 40],
    pub len: usize,
}

#[tactic(auto, unfolding(crate::specs::Commands::tick_line))]
pub fn tick_line(line: &[u8]) -> Option<Line>
    ensures { result ≡ tick_line line.now }
{
    let turns = match words::word_count(line) {
        1 => 1,
        2 => words::number_at(line, 1, 0xFFFFF)?,
        _ => return None,
    };
    Some(Line::Asks(CallLine::Plain(PlainCall::Tick(turns))))
}

#[tactic(auto, unfolding(crate::specs::Commands::epc_line))]
pub fn epc_line(line: &[u8]) -> Option<Line>
    ensures { result ≡ epc_line line.now }
{
    if words::word_count(line) != 5 {
        return None;
    }
    let registers = Registers {
        command: words::byte_at(line, 1)?,
        feature: words::byte_at(line, 2)?,
        count: words::byte_at(line, 3)?,
        lba: words::number_at(line, 4, 0xFFFFFFFF)?,
    };
    Some(Line::Asks(CallLine::Plain(PlainCall::Epc(registers))))
}

// The number of a command that takes one and no more, if it is at most `top`.
fn only_number(line: &[u8], top: u32) -> Option<u32>
    ensures { result ≡ only_number top line.now }
{
    if words::word_count(line) != 2 {
        return None;
    }
    words::number_at(line, 1, top)
}

#[tactic(auto, unfolding(crate::specs::Commands::read_line))]
pub fn read_line(line: &[u8]) -> Option<Line>
    ensures { result ≡ read_line line.now }
{
    let host = only_number(line, 0xFF)?;
    Some(Line::Asks(CallLine::Plain(PlainCall::Read(host))))
}

#[tactic(auto, unfolding(crate::specs::Commands::write_line))]
pub fn write_line(line: &[u8]) -> Option<Line>
    ensures { result ≡ write_line line.now }
{
    let host = only_number(line, 0xFF)?;
    Some(Line::Asks(CallLine::Plain(PlainCall::Write(host))))
}

#[tactic(auto, unfolding(crate::specs::Commands::next_line))]
pub fn next_line(line: &[u8]) -> Option<Line>
    ensures { result ≡ next_line line.now }
{
    let host = only_number(line, 0xFF)?;
    Some(Line::Asks(CallLine::Next(host)))
}

#[tactic(auto, unfolding(crate::specs::Commands::reset_line, words::specs::Words::words, words::specs::Words::pieces, words::specs::Words::nonempty))]
pub fn reset_line(line: &[u8]) -> Option<Line>
    ensures { result ≡ reset_line line.now }
{
    if words::word_count(line) != 2 {
        return None;
    }
    let resets = [
        PlainCall::PowerOn,
        PlainCall::HardReset,
        PlainCall::SoftReset,
    ];
    let reset = asked::kind_at(line, 1, b"power hard soft", resets)?;
    Some(Line::Asks(CallLine::Plain(reset)))
}

#[tactic(auto, unfolding(crate::specs::Commands::answer_line, words::specs::Words::words, words::specs::Words::pieces, words::specs::Words::nonempty))]
pub fn answer_line(line: &[u8]) -> Option<Line>
    ensures { result ≡ answer_line line.now }
{
    if words::word_count(line) != 3 {
        return None;
    }
    let host = words::number_at(line, 1, 0xFF)?;
    let reply = asked::kind_at(line, 2, b"good bad", [Reply::Good, Reply::Bad])?;
    Some(Line::Asks(CallLine::Answer(host, reply)))
}

#[tactic(auto, unfolding(crate::specs::Commands::sense_line))]
pub fn sense_line(line: &[u8]) -> Option<Line>
    ensures { result ≡ sense_line line.now }
{
    if words::word_count(line) != 3 {
        return None;
    }
    let host = words::number_at(line, 1, 0xFF)?;
    let len = words::number_at(line, 2, 0x400)?;
    Some(Line::Asks(CallLine::Sense(host, len)))
}

#[tactic(auto, unfolding(crate::specs::Commands::log_line))]
pub fn log_line(line: &[u8]) -> Option<Line>
    ensures { result ≡ log_line line.now }
{
    let len = only_number(line, 0x400)?;
    Some(Line::Asks(CallLine::Log(len)))
}

#[tactic(auto, unfolding(crate::specs::Commands::transitions_line))]
pub fn transitions_line(line: &[u8]) -> Option<Line>
    ensures { result ≡ transitions_line line.now }
{
    let len = only_number(line, 0x400)?;
    Some(Line::Asks(CallLine::Transitions(len)))
}

#[tactic(auto, unfolding(crate::specs::Commands::new_page_line))]
pub fn new_page_line(line: &[u8]) -> Option<Line>
    ensures { result ≡ new_page_line line.now }
{
    if words::word_count(line) != 3 {
        return None;
    }
    let page = words::number_at(line, 1, 0xFF)?;
    let len = words::number_at(line, 2, 0x400)?;
    Some(Line::Asks(CallLine::NewPage(page, len)))
}

// Manufacture's first line: those of the conditions follow, up to `end`.
#[tactic(auto, unfolding(crate::specs::Commands::make_line))]
pub fn make_line(line: &[u8]) -> Option<Line>
    ensures { result ≡ make_line line.now }
{
    if words::word_count(line) != 2 {
        return None;
    }
    let published = words::flag_at(line, 1)?;
    Some(Line::Makes(asked::edition_from(published)))
}

// The bytes from word 2 on, if each of these is one and there are no more than 40.
fn cdb_in(line: &[u8]) -> Option<CdbBytes>
    ensures spelled { is_some result ≡ is_cdb line.now }
    ensures told { MatchOption result (cdb_in line.now ≡ []) (λ cdb. (take cdb.len cdb.bytes ≡ cdb_in line.now) × (cdb.len ≤ 40)) }
{
    let len = words::word_count(line).saturating_sub(2);
    let mut bytes = [0; 40];
    if len > 40 {
        return None;
    }
    for (i, b) in bytes[..len].iter_mut().enumerate() {
        *b = words::byte_at(line, i + 2)?;
    }
    Some(CdbBytes { bytes, len })
}

#[tactic(auto, unfolding(crate::specs::Commands::start_stop_line))]
pub fn start_stop_line(line: &[u8]) -> Option<Line>
    ensures { result ≡ start_stop_line line.now }
{
    let host = words::number_at(line, 1, 0xFF)?;
    cdb_in(line)?;
    Some(Line::Asks(CallLine::StartStop(host)))
}

// The bytes of START STOP UNIT on a line.
pub fn cdb(text: &[u8]) -> Option<CdbBytes>
    ensures spelled { is_some result ≡ is_cdb (line_in text.now) }
    ensures told { MatchOption result (cdb_in (line_in text.now) ≡ []) (λ cdb. (take cdb.len cdb.bytes ≡ cdb_in (line_in text.now)) × (cdb.len ≤ 40)) }
{
    let end = words::without_return(text);
    cdb_in(&text[..end])
}
