// The lines of a block that are the drive's, read: `ed`, `c`, `state` and `counts`, each as the part of a record that it sets, and `m` of a `make` block.
#![tactic(auto)]

ghost use Rattle.std.specs.Prelude.{◌≡◌, ◌≤◌};
ghost use Rattle.parts.specs.Parts.{setting_in, record_in, power_from, power_in, state_in, condition_line, state_line, row_in, table_in, counts_line, edition_line, made_in, maker_line};

use asked::{Line, Part, State};
use conditions::{Cause, Condition, Power};
use drive::{Millis, Record, Setting, Tenths};

// An enabled flag and a timer.
fn setting_at(line: &[u8], k: usize) -> Option<Setting>
    requires { k ≤ 10 }
    ensures { result ≡ setting_in k line.now }
{
    Some(Setting {
        enabled: words::flag_at(line, k)?,
        timer: Tenths(words::number_at(line, k + 1, 0xFFFFFFFF)?),
    })
}

// What `c` and `m` have in common, as manufacture makes it: saved and current are as the default.
fn made_in(line: &[u8]) -> Option<Record>
    ensures { result ≡ made_in line.now }
{
    let supported = words::flag_at(line, 2)?;
    let saveable = words::flag_at(line, 3)?;
    let changeable = words::flag_at(line, 4)?;
    let recovery = Millis(words::number_at(line, 5, 0xFFFFFFFF)?);
    let default = setting_at(line, 6)?;
    Some(Record {
        supported,
        saveable,
        changeable,
        recovery,
        default,
        saved: default,
        current: default,
    })
}

fn record_in(line: &[u8]) -> Option<Record>
    ensures { result ≡ record_in line.now }
{
    let made = made_in(line)?;
    let saved = setting_at(line, 8)?;
    let current = setting_at(line, 10)?;
    Some(drive::with_settings(made, saved, current))
}

#[tactic(auto, unfolding(crate::specs::Parts::condition_line))]
pub fn condition_line(line: &[u8]) -> Option<Line>
    ensures { result ≡ condition_line line.now }
{
    if words::word_count(line) != 12 {
        return None;
    }
    let c = asked::condition_named(line, 1)?;
    Some(Line::Sets(Part::Settings(c, record_in(line)?)))
}

// "a cause in Active or none below it" is a bad line.
fn power_from(condition: Option<Condition>, cause: Option<Cause>) -> Option<Power>
    ensures { result ≡ power_from condition cause }
{
    match (condition, cause) {
        (None, None) => Some(Power::Active),
        (Some(c), Some(why)) => Some(Power::Low(c, why)),
        _ => None,
    }
}

#[tactic(auto, unfolding(words::specs::Words::words, words::specs::Words::pieces, words::specs::Words::nonempty))]
fn power_in(line: &[u8]) -> Option<Power>
    ensures { result ≡ power_in line.now }
{
    let below = [
        None,
        Some(Condition::IdleA),
        Some(Condition::IdleB),
        Some(Condition::IdleC),
        Some(Condition::StandbyY),
        Some(Condition::StandbyZ),
    ];
    let causes = [None, Some(Cause::Timer), Some(Cause::Command)];
    let condition = asked::kind_at(line, 1, b"active A B C Y Z", below)?;
    let cause = asked::kind_at(line, 2, b"none timer command", causes)?;
    power_from(condition, cause)
}

fn state_in(line: &[u8]) -> Option<State>
    ensures { result ≡ state_in line.now }
{
    Some(State {
        power: power_in(line)?,
        idle: Tenths(words::number_at(line, 3, 0xFFFFFFFF)?),
        stopped: words::flag_at(line, 4)?,
        unsaved: words::flag_at(line, 5)?,
    })
}

#[tactic(auto, unfolding(crate::specs::Parts::state_line))]
pub fn state_line(line: &[u8]) -> Option<Line>
    ensures { result ≡ state_line line.now }
{
    if words::word_count(line) != 6 {
        return None;
    }
    Some(Line::Sets(Part::Stands(state_in(line)?)))
}

// A row of the table of counts.
fn row_at(line: &[u8], k: usize) -> Option<[u32; 2]>
    requires { k ≤ 11 }
    ensures { result ≡ row_in k line.now }
{
    let timer = words::number_at(line, k, 0xFFFFFFFF)?;
    let other = words::number_at(line, k + 1, 0xFFFFFFFF)?;
    Some([timer, other])
}

fn table_in(line: &[u8]) -> Option<[[u32; 2]; 6]>
    ensures { result ≡ table_in line.now }
{
    Some([
        row_at(line, 1)?,
        row_at(line, 3)?,
        row_at(line, 5)?,
        row_at(line, 7)?,
        row_at(line, 9)?,
        row_at(line, 11)?,
    ])
}

#[tactic(auto, unfolding(crate::specs::Parts::counts_line))]
pub fn counts_line(line: &[u8]) -> Option<Line>
    ensures { result ≡ counts_line line.now }
{
    if words::word_count(line) != 13 {
        return None;
    }
    Some(Line::Sets(Part::HasCounts(table_in(line)?)))
}

#[tactic(auto, unfolding(crate::specs::Parts::edition_line))]
pub fn edition_line(line: &[u8]) -> Option<Line>
    ensures { result ≡ edition_line line.now }
{
    if words::word_count(line) != 2 {
        return None;
    }
    let published = words::flag_at(line, 1)?;
    Some(Line::Sets(Part::IsOf(asked::edition_from(published))))
}

#[tactic(auto, unfolding(crate::specs::Parts::maker_line))]
pub fn maker_line(line: &[u8]) -> Option<Line>
    ensures { result ≡ maker_line line.now }
{
    if words::word_count(line) != 8 {
        return None;
    }
    let c = asked::condition_named(line, 1)?;
    Some(Line::Tells(c, made_in(line)?))
}
