// What each line of a script gets for an answer.
#![tactic(auto)]

ghost use Rattle.std.specs.Prelude.{◌≡◌, false, Some};
ghost use Rattle.digits.specs.Sheets.{written, wrote_all};
ghost use Rattle.asked.specs.declared.Line.TheVariants.{Asks};
ghost use Rattle.spelling.specs.Spelling.{shown};
ghost use Rattle.table.specs.Table.{table_lines};
ghost use Rattle.replies.specs.Lines;
ghost use Rattle.replies.specs.Lines.{ok_or_error, ended_unit, ended_make, ended_block, in_block, response};

use asked::{CallLine, Line};
use blocks::{Block, Session};
use digits::{Sheet, Text};

#[tactic(auto, using(digits::proofs::Sheets::line_once), unfolding(digits::specs::Sheets::wrote_all))]
pub fn put_ok(good: bool, out: &mut Sheet<'_>)
    ensures { written out.new ≡ wrote_all (written out.old) (ok_or_error good) }
{
    out.put_line(Text::empty().put_either(good, b"ok", b"error"));
}

fn is_end(line: Option<Line>) -> bool
    ensures { result ≡ Lines.is_end line }
{
    matches!(line, Some(Line::Closes))
}

fn wrong(s: Session, out: &mut Sheet<'_>) -> Session
    ensures { (result ≡ s) × (written out.new ≡ wrote_all (written out.old) (ok_or_error false)) }
{
    put_ok(false, out);
    s
}

fn end_unit(s: Session, out: &mut Sheet<'_>) -> Session
    ensures { (result ≡ (ended_unit s).session) × (written out.new ≡ wrote_all (written out.old) (ended_unit s).pieces) }
{
    put_ok(s.planned.is_some(), out);
    blocks::close_block(s)
}

// Manufactures, unless a line of the block was bad.
fn end_make(s: Session, out: &mut Sheet<'_>) -> Session
    ensures { (result ≡ (ended_make s).session) × (written out.new ≡ wrote_all (written out.old) (ended_make s).pieces) }
{
    match s.planned {
        Some(planned) => blocks::close_with(s, answers::manufacture(s.unit, planned, out)),
        None => wrong(blocks::close_with(s, s.unit), out),
    }
}

fn end_block(s: Session, out: &mut Sheet<'_>) -> Session
    ensures { (result ≡ (ended_block s.block s).session) × (written out.new ≡ wrote_all (written out.old) (ended_block s.block s).pieces) }
{
    match s.block {
        None => wrong(s, out),
        Some(Block::UnitBlock) => end_unit(s, out),
        Some(Block::MakeBlock) => end_make(s, out),
    }
}

#[tactic(auto, unfolding(digits::specs::Sheets::wrote_all))]
fn in_block(s: Session, line: Option<Line>, out: &mut Sheet<'_>) -> Session
    ensures { (result ≡ (in_block s line).session) × (written out.new ≡ wrote_all (written out.old) (in_block s line).pieces) }
{
    if is_end(line) {
        return end_block(s, out);
    }
    blocks::block_line(s, line)
}

fn ask(s: Session, call: CallLine, text: &[u8], out: &mut Sheet<'_>) -> Session
    ensures { (result ≡ (Lines.outside s (Some (Asks call)) text.now).session)
        × (written out.new ≡ wrote_all (written out.old) (Lines.outside s (Some (Asks call)) text.now).pieces) }
{
    let unit = answers::make(s.unit, call, text, out);
    blocks::with_unit(s, unit)
}

fn print_record(s: Session, out: &mut Sheet<'_>) -> Session
    ensures { (result ≡ s) × (written out.new ≡ wrote_all (written out.old) (shown s.unit)) }
{
    spelling::show(s.unit, out);
    s
}

fn print_table(s: Session, out: &mut Sheet<'_>) -> Session
    ensures { (result ≡ s) × (written out.new ≡ wrote_all (written out.old) (table_lines s.unit)) }
{
    table::put_table(s.unit, out);
    s
}

#[tactic(auto, unfolding(digits::specs::Sheets::wrote_all))]
fn outside(s: Session, line: Option<Line>, text: &[u8], out: &mut Sheet<'_>) -> Session
    ensures { (result ≡ (Lines.outside s line text.now).session) × (written out.new ≡ wrote_all (written out.old) (Lines.outside s line text.now).pieces) }
{
    match line {
        Some(Line::Blank) => s,
        Some(Line::Asks(call)) => ask(s, call, text, out),
        Some(Line::Opens) => blocks::open_block(s),
        Some(Line::Makes(edition)) => blocks::open_make(s, edition),
        Some(Line::Shows) => print_record(s, out),
        Some(Line::Tables) => print_table(s, out),
        _ => wrong(s, out),
    }
}

// Answers the line whose bytes before the LF are `text`, and hands back the session after it.
pub fn respond(s: Session, text: &[u8], out: &mut Sheet<'_>) -> Session
    ensures { (result ≡ (response s text.now).session) × (written out.new ≡ wrote_all (written out.old) (response s text.now).pieces) }
{
    let line = script::read(text);
    if blocks::is_open(s.block) {
        return in_block(s, line, out);
    }
    outside(s, line, text, out)
}
