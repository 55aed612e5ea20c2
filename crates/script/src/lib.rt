// A line of a script as what it asks for: a call, a line of a block, or a word that stands alone.
#![tactic(auto)]

ghost use Rattle.std.specs.Prelude.{◌++◌, ◌≡◌};
ghost use Rattle.script.specs.Lines.{call_entries, part_entries, lone_entries, reader_at, read_by, line_of_words, line_of_text};

use asked::Line;

// The names of calls are at places 0 to 14. Stays a match on the place: of one on the name's own bytes the proof of the last arm did not close, which
// came apart into a goal for each length and byte at which the names part.
fn call_at(line: &[u8], place: usize) -> Option<Line>
    ensures { result ≡ reader_at call_entries place line.now }
{
    match place {
        0 => commands::tick_line(line),
        1 => commands::epc_line(line),
        2 => commands::read_line(line),
        3 => commands::write_line(line),
        4 => commands::reset_line(line),
        5 => commands::start_stop_line(line),
        6 => commands::next_line(line),
        7 => commands::answer_line(line),
        8 => commands::sense_line(line),
        9 => commands::log_line(line),
        10 => commands::transitions_line(line),
        11 => pairs::faults_line(line),
        12 => pairs::record_line(line),
        13 => commands::new_page_line(line),
        14 => commands::make_line(line),
        _ => None,
    }
}

// Stays a match on the place, as that of `call_at`.
fn part_at(line: &[u8], place: usize) -> Option<Line>
    ensures { result ≡ reader_at part_entries place line.now }
{
    match place {
        0 => parts::condition_line(line),
        1 => parts::state_line(line),
        2 => hosts::slot_line(line),
        3 => hosts::held_line(line),
        4 => hosts::out_line(line),
        5 => parts::counts_line(line),
        6 => parts::edition_line(line),
        7 => parts::maker_line(line),
        _ => None,
    }
}

// What a line asks for by a word that stands alone.
fn read_lone(line: &[u8]) -> Option<Line>
    ensures { result ≡ read_by lone_entries line.now }
{
    if words::word_count(line) != 1 {
        return None;
    }
    let asked = [Line::Opens, Line::Closes, Line::Shows, Line::Tables];
    asked::kind_at(line, 0, b"unit end show table", asked)
}

// What it asks for by a word of a block, or by one that stands alone.
fn read_in_block(line: &[u8]) -> Option<Line>
    ensures { result ≡ read_by (part_entries ++ lone_entries) line.now }
{
    match words::name_at(line, 0, b"c state slot held out counts ed m") {
        Some(place) => part_at(line, place),
        None => read_lone(line),
    }
}

// What the line's words ask for.
fn read_words(line: &[u8]) -> Option<Line>
    ensures { result ≡ line_of_words line.now }
{
    if words::word_count(line) == 0 {
        return Some(Line::Blank);
    }
    let calls =
        b"tick epc read write reset ssu next answer sense log trans faults record page make";
    match words::name_at(line, 0, calls) {
        Some(place) => call_at(line, place),
        None => read_in_block(line),
    }
}

// A line's bytes before its LF as what they ask for, if the line is as the format says.
pub fn read(text: &[u8]) -> Option<Line>
    ensures { result ≡ line_of_text text.now }
{
    if text.len() > 4000 {
        return None;
    }
    let end = words::without_return(text);
    read_words(&text[..end])
}
