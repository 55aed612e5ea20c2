// A script's text: lines, words, and the numbers, flags and names that words spell.
#![tactic(auto)]

ghost use Rattle.std.specs.Prelude.{◌≡◌, ℕ, ◌+◌, ◌≤◌, ◌∷◌, [], MatchOption, drop, length, take, ◌++◌};
ghost use Rattle.std.specs.Iterator.{YieldsFirstRef, item_count};
ghost use Rattle.words.specs.Lines.{before_feed, before_return};
ghost use Rattle.words.specs.Numbers.{digit_in, word_number, word_flag};
ghost use Rattle.words.specs.Words.{is_blank, ends_word, blanks, word_length, first_word, behind_word, words, word_at, place_in};

// The words of a line, from the first on.
#[derive(Drop)]
pub struct Words<'a>(pub &'a [u8]);

impl<'a> Iterator for Words<'a> {
    type Item = &'a [u8];

    ghost next_gives = { YieldsFirstRef (λ s. words s.0.now) };

    ghost remaining = { item_count (λ s. words s.0.now) };

    fn next(&mut self) -> Option<&'a [u8]> {
        let (word, others) = first_word(self.0)?;
        self.0 = others;
        Some(word)
    }
}

// The length of a line without the CR at its end.
pub fn without_return(line: &[u8]) -> usize
    ensures { (result ≡ before_return line.now) × (result ≤ length line.now) }
{
    line.strip_suffix(b"\r").unwrap_or(line).len()
}

// Stays a buffer with a length beside it: the program owns the line that it keeps, in fixed memory.
// Adds bytes to the `len` that `line` has, as many as it has room for, and answers how many it has then.
pub fn append(line: &mut [u8], len: usize, more: &[u8]) -> usize
    ensures { (take result line.new ≡ take (length line.old) (take len line.old ++ more.now)) × (result ≤ length line.new) }
{
    let start = len.min(line.len());
    let count = (line.len() - start).min(more.len());
    line[start..start + count].copy_from_slice(&more[..count]);
    start + count
}

fn is_blank(b: u8) -> bool
    ensures { result ≡ is_blank b }
{
    matches!(b, b' ' | b'\t')
}

// Whether a byte belongs to no word.
fn ends_word(b: u8) -> bool
    ensures { result ≡ ends_word b }
{
    is_blank(b) | (b == b'#')
}

// The place of the next LF from `from` on, or the end.
pub fn line_end(text: &[u8], from: usize) -> usize
    ensures { result ≡ from + before_feed (drop from text.now) }
{
    text.iter()
        .skip(from)
        .position(|b| *b == b'\n')
        .map_or(from.max(text.len()), |n| from + n)
}

// How many blanks a text starts with.
fn blanks(text: &[u8]) -> usize
    ensures { (result ≡ blanks text.now) × (result ≤ length text.now) }
{
    text.iter()
        .position(|b| !is_blank(*b))
        .unwrap_or(text.len())
}

// How many bytes of a word a text starts with.
fn word_length(text: &[u8]) -> usize
    ensures { (result ≡ word_length text.now) × (result ≤ length text.now) }
{
    text.iter()
        .position(|b| ends_word(*b))
        .unwrap_or(text.len())
}

// The first word of a line and what follows it, if it has a word.
pub fn first_word(line: &[u8]) -> Option<(&[u8], &[u8])>
    ensures cases { MatchOption result (words line.now ≡ []) (λ p. words line.now ≡ p.0.now ∷ words p.1.now) }
    ensures places { MatchOption result (first_word line.now ≡ []) (λ p. (p.0.now ≡ first_word line.now) × (p.1.now ≡ behind_word line.now)) }
{
    let (_, text) = line.split_at(blanks(line));
    let len = word_length(text);
    if len == 0 {
        return None;
    }
    Some(text.split_at(len))
}

// What follows the first k words.
pub fn after_words(line: &[u8], k: usize) -> &[u8]
    ensures others { words result.now ≡ drop k (words line.now) }
    ensures tail { (n : ℕ) × (result.now ≡ drop n line.now) }
{
    let mut rest = line;
    for _ in 0..k {
        let Some((_, others)) = first_word(rest) else {
            return rest;
        };
        rest = others;
    }
    rest
}

// The word of that number, from 0; empty where the line has no such word.
fn word_at(line: &[u8], k: usize) -> &[u8]
    ensures { result.now ≡ word_at k line.now }
{
    Words(line).nth(k).unwrap_or(&[])
}

// How many words the line has.
#[tactic(auto, using(crate::proofs::Cuts::words_within))]
pub fn word_count(line: &[u8]) -> usize
    ensures { result ≡ length (words line.now) }
{
    Words(line).count()
}

// The place of a word among names, which are words of a text themselves, if it is one of them.
fn place_in(w: &[u8], names: &[u8]) -> Option<usize>
    ensures { result ≡ place_in w.now (words names.now) }
{
    Words(names).position(|n| w == n)
}

// Which of the names the word of that number is.
pub fn name_at(line: &[u8], k: usize, names: &[u8]) -> Option<usize>
    ensures { result ≡ place_in (word_at k line.now) (words names.now) }
{
    place_in(word_at(line, k), names)
}

// What a hex digit of either case stands for. Stays tests joined by `&`, of which the compiler makes one each: `match` on the ranges, two branches each,
// costs `hex` half as much time again.
fn digit(b: u8) -> Option<u32>
    ensures { result ≡ digit_in b }
{
    if (b'0' <= b) & (b <= b'9') {
        return Some((b - b'0') as u32);
    }
    if (b'A' <= b) & (b <= b'F') {
        return Some((b - b'A') as u32 + 10);
    }
    if (b'a' <= b) & (b <= b'f') {
        return Some((b - b'a') as u32 + 10);
    }
    None
}

// The number that these bytes spell, if it is at most `top`.
pub fn hex(w: &[u8], top: u32) -> Option<u32>
    ensures { result ≡ word_number top w.now }
{
    let n = w.len();
    if !(1..=8).contains(&n) {
        return None;
    }
    let mut value: u64 = 0;
    for b in w {
        value = value * 16 + digit(*b)? as u64;
    }
    if value > top as u64 {
        return None;
    }
    Some(value as u32)
}

// The number that the word of that number spells.
pub fn number_at(line: &[u8], k: usize, top: u32) -> Option<u32>
    ensures { result ≡ word_number top (word_at k line.now) }
{
    hex(word_at(line, k), top)
}

// The byte that it spells.
#[tactic(auto, using(crate::proofs::Values::within))]
pub fn byte_at(line: &[u8], k: usize) -> Option<u8>
    ensures { result ≡ word_number 0xFF (word_at k line.now) }
{
    let n = number_at(line, k, 0xFF)?;
    Some(n as u8)
}

#[tactic(auto, unfolding(crate::specs::Numbers::word_flag, crate::specs::Words::words, crate::specs::Words::pieces, crate::specs::Words::nonempty))]
pub fn flag_at(line: &[u8], k: usize) -> Option<bool>
    ensures { result ≡ word_flag (word_at k line.now) }
{
    name_at(line, k, b"0 1").map(|place| place == 1)
}
