// The blocks of a script, `unit` and `make`: what their lines set, and the session that they stand in.
#![tactic(auto)]

ghost use Rattle.std.specs.Prelude.{◌≡◌, Some};
ghost use Rattle.asked.specs.declared.Line.TheVariants.{Sets, Tells};
ghost use Rattle.asked.specs.declared.Part.TheVariants.{IsOf, Settings, Stands, HasCounts};
ghost use Rattle.blocks.specs.Parts.{set_part};
ghost use Rattle.blocks.specs.Sessions;
ghost use Rattle.blocks.specs.Sessions.{start_session, opened, opened_make, takes_parts, takes_told, after_line, closed_with, closed};

use asked::{Line, Part, State};
use conditions::Condition;
use drive::{Drive, Edition, Record};
use unit::Unit;

// The block that is open: that of `unit` or of `make`.
#[derive(Clone, Copy)]
pub enum Block {
    UnitBlock,
    MakeBlock,
}

// A run of a script: its unit and, while a block is open, the record that its lines plan: what a `unit` block sets up, or what manufacture makes of a
// `make` block. None is planned once a line of the block was bad.
#[derive(Clone, Copy)]
pub struct Session {
    pub unit: Unit,
    pub block: Option<Block>,
    pub planned: Option<Unit>,
}

// No call changes a unit's edition; a block sets the record up anew.
fn set_edition(u: Unit, edition: Edition) -> Unit
    ensures { result ≡ set_part (IsOf edition) u }
{
    Unit { edition, ..u }
}

fn set_record(u: Unit, c: Condition, r: Record) -> Unit
    ensures { result ≡ set_part (Settings c r) u }
{
    let mut records = u.drive.records;
    records[conditions::place_of(c)] = r;
    unit::with_drive(u, drive::with_records(u.drive, records))
}

fn set_state(u: Unit, s: State) -> Unit
    ensures { result ≡ set_part (Stands s) u }
{
    let d = Drive {
        power: s.power,
        idle: s.idle,
        ..u.drive
    };
    unit::with_marks(unit::with_drive(u, d), s.stopped, s.unsaved)
}

fn set_counts(u: Unit, table: [[u32; 2]; 6]) -> Unit
    ensures { result ≡ set_part (HasCounts table) u }
{
    let counts = transitions::flat_of(table);
    unit::with_drive(u, drive::with_counts(u.drive, counts))
}

fn set_part(u: Unit, p: Part) -> Unit
    ensures { result ≡ set_part p u }
{
    match p {
        Part::IsOf(edition) => set_edition(u, edition),
        Part::Settings(c, r) => set_record(u, c, r),
        Part::Stands(s) => set_state(u, s),
        Part::HasSlot(host, slot) => unit::with_slot(u, host, slot),
        Part::HasHeld(host, held) => unit::with_held(u, host, held),
        Part::HasOut(out) => unit::with_out(u, out),
        Part::HasCounts(table) => set_counts(u, table),
    }
}

// ---- the session

// "A run starts with an all-zero unit".
pub fn start() -> Session
    ensures { result ≡ start_session }
{
    let zero = unit::blank_unit(Edition::Draft);
    Session {
        unit: zero,
        block: None,
        planned: Some(zero),
    }
}

pub fn is_open(block: Option<Block>) -> bool
    ensures { result ≡ Sessions.is_open block }
{
    block.is_some()
}

// A session whose unit a call has changed.
pub fn with_unit(s: Session, u: Unit) -> Session
    ensures { result ≡ Sessions.with_unit u s }
{
    Session { unit: u, ..s }
}

pub fn open_block(s: Session) -> Session
    ensures { result ≡ opened s }
{
    Session {
        unit: s.unit,
        block: Some(Block::UnitBlock),
        planned: Some(unit::blank_unit(Edition::Draft)),
    }
}

pub fn open_make(s: Session, edition: Edition) -> Session
    ensures { result ≡ opened_make edition s }
{
    Session {
        unit: s.unit,
        block: Some(Block::MakeBlock),
        planned: Some(unit::blank_unit(edition)),
    }
}

fn spoilt(s: Session) -> Session
    ensures { result ≡ Sessions.spoilt s }
{
    Session { planned: None, ..s }
}

fn takes_parts(block: Option<Block>) -> bool
    ensures { result ≡ takes_parts block }
{
    matches!(block, Some(Block::UnitBlock))
}

fn takes_told(block: Option<Block>) -> bool
    ensures { result ≡ takes_told block }
{
    matches!(block, Some(Block::MakeBlock))
}

fn with_part(s: Session, p: Part) -> Session
    ensures { result ≡ after_line (Some (Sets p)) s }
{
    if takes_parts(s.block) {
        return Session {
            planned: s.planned.map(|u| set_part(u, p)),
            ..s
        };
    }
    spoilt(s)
}

fn with_told(s: Session, c: Condition, made: Record) -> Session
    ensures { result ≡ after_line (Some (Tells c made)) s }
{
    if takes_told(s.block) {
        return Session {
            planned: s.planned.map(|u| set_record(u, c, made)),
            ..s
        };
    }
    spoilt(s)
}

// A line of an open block other than its `end`.
pub fn block_line(s: Session, line: Option<Line>) -> Session
    ensures { result ≡ after_line line s }
{
    match line {
        Some(Line::Blank) => s,
        Some(Line::Sets(part)) => with_part(s, part),
        Some(Line::Tells(c, made)) => with_told(s, c, made),
        _ => spoilt(s),
    }
}

// A block's end, with the unit that it leaves.
pub fn close_with(s: Session, u: Unit) -> Session
    ensures { result ≡ closed_with u s }
{
    Session {
        unit: u,
        block: None,
        ..s
    }
}

// "The block replaces the whole record", unless a line of it was bad.
pub fn close_block(s: Session) -> Session
    ensures { result ≡ closed s }
{
    close_with(s, s.planned.unwrap_or(s.unit))
}
