// What a line of a script can ask for: a call, a line of a block, or what a word says that stands alone.
#![tactic(auto)]

ghost use Rattle.std.specs.Prelude.{◌≡◌, ◌≤◌};
ghost use Rattle.words.specs.Words.{words};
ghost use Rattle.words.specs.Fields.{name_in};
ghost use Rattle.asked.specs.Editions.{edition_from};
ghost use Rattle.asked.specs.Kinds.{kind_in, condition_in};
ghost use Rattle.asked.specs.Lengths.{buffer_length};

use conditions::{Condition, Power};
use drive::{Edition, Record, Tenths};
use registers::Registers;
use requests::{Failure, Reply};
use unit::Slot;

// A call that answers that it is done, or a refusal.
#[derive(Clone, Copy)]
pub enum PlainCall {
    Tick(u32),
    Epc(Registers),
    Read(u32),
    Write(u32),
    PowerOn,
    HardReset,
    SoftReset,
}

// A call; START STOP UNIT's bytes and a page's are read apart, from the text, so that no line is as large as the longest page.
#[derive(Clone, Copy)]
pub enum CallLine {
    Plain(PlainCall),
    StartStop(u32),
    Next(u32),
    Answer(u32, Reply),
    Sense(u32, u32),
    Log(u32),
    Transitions(u32),
    NewPage(u32, u32),
    PageFaults(u32),
    PageRecord(Condition, u32),
}

// What the line `state` sets.
#[derive(Clone, Copy)]
pub struct State {
    pub power: Power,
    pub idle: Tenths,
    pub stopped: bool,
    pub unsaved: bool,
}

// What one line of a `unit` block sets.
#[derive(Clone, Copy)]
pub enum Part {
    IsOf(Edition),
    Settings(Condition, Record),
    Stands(State),
    HasSlot(u32, Slot),
    HasHeld(u32, Option<Failure>),
    HasOut(Option<u32>),
    HasCounts([[u32; 2]; 6]),
}

// A line of a `unit` block sets a part of the record; one of a `make` block tells what manufacture makes of a condition.
#[derive(Clone, Copy)]
pub enum Line {
    Blank,
    Asks(CallLine),
    Sets(Part),
    Tells(Condition, Record),
    Opens,
    Makes(Edition),
    Closes,
    Shows,
    Tables,
}

// What the word of that number names: of these kinds the one at the name's place.
pub fn kind_at<T: Copy, const N: usize>(
    line: &[u8],
    k: usize,
    names: &[u8],
    kinds: [T; N],
) -> Option<T>
    ensures { result ≡ kind_in (words names.now) kinds k line.now }
{
    let place = words::name_at(line, k, names)?;
    kinds.get(place).copied()
}

// The condition whose letter the word of that number is.
#[tactic(auto, unfolding(words::specs::Words::words, words::specs::Words::pieces, words::specs::Words::nonempty))]
pub fn condition_named(line: &[u8], k: usize) -> Option<Condition>
    ensures { result ≡ condition_in k line.now }
{
    kind_at(
        line,
        k,
        b"A B C Y Z",
        [
            Condition::IdleA,
            Condition::IdleB,
            Condition::IdleC,
            Condition::StandbyY,
            Condition::StandbyZ,
        ],
    )
}

// The edition that a flag stands for.
pub fn edition_from(published: bool) -> Edition
    ensures { result ≡ edition_from published }
{
    if published {
        Edition::Published
    } else {
        Edition::Draft
    }
}

// How many bytes a line's LEN lends: no line gives more than the longest buffer has.
pub fn buffer_len(len: u32) -> usize
    ensures { (result ≡ buffer_length len) × (result ≤ 1024) }
{
    len.min(1024) as usize
}
