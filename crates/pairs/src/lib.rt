// The lines that have a page read that another maker wrote: the words `W=V` on them, and the page that these make.
#![tactic(auto)]

ghost use Rattle.std.specs.Prelude.{◌≡◌, ◌<◌, ◌≤◌, drop, length, take};
ghost use Rattle.std.specs.Option.{unwrap_or};
ghost use Rattle.words.specs.Words.{words};
ghost use Rattle.pairs.specs.Pairs.{before_equals, pair_in, is_pair, are_pairs, zeros, with_pairs, page_of, faults_line, record_line};

use asked::{CallLine, Line};
use words::Words;

// A page's word and its value, as `W=V` spells them, so far as they are numbers in range.
#[derive(Clone, Copy)]
pub struct Pair {
    pub place: Option<u32>,
    pub value: Option<u32>,
}

// A page: the first `len` of these bytes.
// Stays an array with a length beside it: fixed memory, as a page of a line is as long as the line says.
#[derive(Clone, Copy)]
pub struct LinePage {
    pub bytes: [u8; 1024],
    pub len: usize,
}

// The place of a word's first `=`, or its end.
fn equals_at(w: &[u8]) -> usize
    ensures { (result ≡ before_equals w.now) × (result ≤ length w.now) }
{
    w.iter().position(|b| *b == b'=').unwrap_or(w.len())
}

// Inlined where a word is tested and where it is read: a call for each word costs a line of pairs a third more time.
#[inline(always)]
fn pair_in(w: &[u8]) -> Pair
    ensures { (result ≡ pair_in w.now) × (unwrap_or result.place 0 < 256) × (unwrap_or result.value 0 < 65536) }
{
    let (place, rest) = w.split_at(equals_at(w));
    let value = rest.strip_prefix(b"=").unwrap_or(rest);
    Pair {
        place: words::hex(place, 0xFF),
        value: words::hex(value, 0xFFFF),
    }
}

fn is_pair(w: &[u8]) -> bool
    ensures { result ≡ is_pair w.now }
{
    let p = pair_in(w);
    p.place.is_some() & p.value.is_some()
}

// Whether the words from k on are all pairs.
fn are_pairs(line: &[u8], k: usize) -> bool
    ensures { result ≡ are_pairs (drop k (words line.now)) }
{
    Words(line).skip(k).all(|w| is_pair(w))
}

// What the pairs from word k on make of the longest page.
fn read_pairs(line: &[u8], k: usize) -> [u8; 1024]
    ensures { result ≡ with_pairs (zeros 0x400) (drop k (words line.now)) }
{
    let mut bytes = [0u8; 1024];
    for w in Words(words::after_words(line, k)) {
        let p = pair_in(w);
        let place = 2 * p.place.unwrap_or(0) as usize;
        let value = (p.value.unwrap_or(0) as u16).to_le_bytes();
        bytes[place..place + 2].copy_from_slice(&value);
    }
    bytes
}

// The page of a line whose pairs are the words from k on.
pub fn page_of(text: &[u8], k: usize, len: u32) -> LinePage
    ensures { (take result.len result.bytes ≡ page_of k len text.now) × (result.len ≤ 1024) }
{
    let end = words::without_return(text);
    let len = asked::buffer_len(len);
    let bytes = if len == 512 {
        read_pairs(&text[..end], k)
    } else {
        [0u8; 1024]
    };
    LinePage { bytes, len }
}

#[tactic(auto, unfolding(crate::specs::Pairs::faults_line))]
pub fn faults_line(line: &[u8]) -> Option<Line>
    ensures { result ≡ faults_line line.now }
{
    let len = words::number_at(line, 1, 0x400)?;
    are_pairs(line, 2).then_some(Line::Asks(CallLine::PageFaults(len)))
}

#[tactic(auto, unfolding(crate::specs::Pairs::record_line))]
pub fn record_line(line: &[u8]) -> Option<Line>
    ensures { result ≡ record_line line.now }
{
    let c = asked::condition_named(line, 1)?;
    let len = words::number_at(line, 2, 0x400)?;
    are_pairs(line, 3).then_some(Line::Asks(CallLine::PageRecord(c, len)))
}
