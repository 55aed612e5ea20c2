// What a page of another maker says, and what is wrong with it (document 02, request (v)): the work, on the page where it lies.
// A page is 512 bytes by its type here, and the place of a word, 0 to 255, is a `u8`; the calls that take any page stand in `reader`.
#![tactic(auto)]

ghost use Rattle.std.specs.Prelude.{◌≡◌, ◌-◌, ◌+◌, ◌*◌, ◌<◌, ◌≤◌, min, []};
ghost use Rattle.conditions.specs.Conditions.{condition_at};
ghost use Rattle.pages.specs.Readings.{page_word, page_setting, record_from, page_record};
ghost use Rattle.faults.specs.Inner;
ghost use Rattle.faults.specs.Inner.{added, added_if, noted};
ghost use Rattle.faults.specs.Listing.{listing, faults_from, faults_of};
ghost use Rattle.faults.specs.Tests.{kind_number, is_set_unsupported, is_same_setting, is_saved_off};

use drive::{Millis, Record, Setting, Tenths};

// What can be wrong at a word: request (v)'s kinds, in its order.
#[derive(Clone, Copy)]
pub enum FaultKind {
    ReservedWord,
    ReservedBits,
    SetUnsupported,
    NoTimer,
    SavedOff,
}

// A fault: its kind, and the place of its word.
#[derive(Clone, Copy)]
pub struct Fault {
    pub kind: FaultKind,
    pub place: u32,
}

// How many faults a page has, and the first 64; kind 0 at word 0 fills the places after the last.
// Stays an array, blanks and a count: no heap here, the count goes on past the 64th, and `faults/Order · listed_blank` says what the blanks are.
#[derive(Clone, Copy)]
pub struct Faults {
    pub total: u32,
    pub listed: [Fault; 64],
}

// A kind's place in request (v)'s order, from 0.
pub fn kind_number(kind: FaultKind) -> u32
    ensures { result ≡ kind_number kind }
{
    kind as u32
}

// How many of the entries are faults: the others are blank.
pub fn listed_count(total: u32) -> usize
    ensures { (result ≡ min total 64) × (result ≤ 64) }
{
    total.min(64) as usize
}

// ---- a record, read

// The word at a place, its low byte first.
fn word_at(page: &[u8; 512], w: u8) -> u16
    ensures { result ≡ page_word page.now w }
{
    let at = 2 * usize::from(w);
    u16::from_le_bytes([page[at], page[at + 1]])
}

// The setting whose flag is in bit 15 of that word.
fn setting_at(page: &[u8; 512], w: u8) -> Setting
    requires { w < 255 }
    ensures { result ≡ page_setting page.now w }
{
    let flags = word_at(page, w);
    let timer = word_at(page, w + 1);
    Setting {
        enabled: flags / 0x8000 % 2 != 0,
        timer: Tenths(u32::from(timer)),
    }
}

// The record whose first word is there.
fn record_from(page: &[u8; 512], w: u8) -> Record
    requires { w < 80 }
    ensures { result ≡ record_from page.now w }
{
    let flags = word_at(page, w + 1);
    let recovery = word_at(page, w);
    Record {
        supported: flags / 0x8000 % 2 != 0,
        saveable: flags / 0x4000 % 2 != 0,
        changeable: flags / 0x2000 % 2 != 0,
        recovery: Millis(u32::from(recovery)),
        default: setting_at(page, w + 2),
        saved: setting_at(page, w + 4),
        current: setting_at(page, w + 6),
    }
}

// The record of the condition of that place.
pub fn record_of(page: &[u8; 512], place: usize) -> Record
    requires { place < 5 }
    ensures { result ≡ page_record page.now (condition_at place) }
{
    record_from(page, 16 * (place as u8))
}

// ---- the list

// No fault yet: every place is blank.
#[tactic(auto, unfolding(crate::specs::Listing::first_with_blanks))]
pub fn no_faults() -> Faults
    ensures { result ≡ listing [] }
{
    let blank = Fault {
        kind: FaultKind::ReservedWord,
        place: 0,
    };
    Faults {
        total: 0,
        listed: [blank; 64],
    }
}

impl Faults {
    // One more fault: in the list if there is room left, and counted.
    fn add(&mut self, kind: FaultKind, w: u8)
        ensures { self.new ≡ added self.old (record { kind = kind; place = w }) }
    {
        let n = self.total as usize;
        // Stays a test and an index: of `get_mut` std does not promise what the list ends as.
        if n < self.listed.len() {
            self.listed[n] = Fault {
                kind,
                place: u32::from(w),
            };
        }
        self.total = self.total.wrapping_add(1);
    }

    // One more, if it applies.
    #[tactic(auto, unfolding(crate::specs::Inner::noted))]
    fn add_if(&mut self, applies: bool, kind: FaultKind, w: u8)
        ensures { self.new ≡ noted self.old (added_if applies kind w []) }
    {
        if applies {
            self.add(kind, w);
        }
    }
}

// ---- a condition's words

// An unsupported condition with another named bit or number set.
fn is_set_unsupported(r: Record) -> bool
    ensures { result ≡ is_set_unsupported r }
{
    !r.supported & !drive::others_zero(r)
}

fn is_same_setting(s: Setting, t: Setting) -> bool
    ensures { result ≡ is_same_setting s t }
{
    s == t
}

// Saved off default while not saveable.
fn is_saved_off(r: Record) -> bool
    ensures { result ≡ is_saved_off r }
{
    !r.saveable & !is_same_setting(r.saved, r.default)
}

// The faults of a condition's own flag word, +1.
#[tactic(auto, using(crate::proofs::Noted::noted_append))]
fn head_faults(page: &[u8; 512], w: u8, r: Record, faults: &mut Faults)
    ensures { faults.new ≡ noted faults.old (Inner.head_faults page.now w r) }
{
    let reserved = word_at(page, w) % 0x2000 != 0;
    faults.add_if(reserved, FaultKind::ReservedBits, w);
    faults.add_if(is_set_unsupported(r), FaultKind::SetUnsupported, w);
}

// The faults of a setting that was read, at its flag word, but for kind 4.
#[tactic(auto, using(crate::proofs::Noted::noted_append))]
fn setting_faults(page: &[u8; 512], w: u8, s: Setting, faults: &mut Faults)
    ensures { faults.new ≡ noted faults.old (Inner.setting_faults page.now w s) }
{
    let reserved = word_at(page, w) % 0x8000 != 0;
    let untimed = s.enabled & (s.timer.0 == 0);
    faults.add_if(reserved, FaultKind::ReservedBits, w);
    faults.add_if(untimed, FaultKind::NoTimer, w);
}

// The faults of the words that 001 names, +0 to +7 of a condition.
#[tactic(auto, using(crate::proofs::Noted::noted_append))]
fn named_faults(page: &[u8; 512], w: u8, faults: &mut Faults)
    requires { w < 80 }
    ensures { faults.new ≡ noted faults.old (Inner.named_faults page.now w (record_from page.now w)) }
{
    let r = record_from(page, w);
    head_faults(page, w + 1, r, faults);
    setting_faults(page, w + 2, r.default, faults);
    setting_faults(page, w + 4, r.saved, faults);
    faults.add_if(is_saved_off(r), FaultKind::SavedOff, w + 4);
    setting_faults(page, w + 6, r.current, faults);
}

// The words that are not zero from one place to another, the last one too.
#[tactic(auto, using(crate::proofs::Spots::reserved_steps))]
fn reserved_faults(page: &[u8; 512], from: u8, last: u8, faults: &mut Faults)
    ensures { faults.new ≡ noted faults.old (Inner.nonzero_from page.now from (last + 1 - from)) }
{
    for w in from..=last {
        faults.add_if(word_at(page, w) != 0, FaultKind::ReservedWord, w);
    }
}

// The faults of a condition's sixteen words.
#[tactic(auto, using(crate::proofs::Noted::noted_append, crate::proofs::Spots::condition_words))]
fn condition_faults(page: &[u8; 512], place: u8, faults: &mut Faults)
    requires { place < 5 }
    ensures { faults.new ≡ noted faults.old (faults_from page.now (16 * place) 16) }
{
    let w = 16 * place;
    named_faults(page, w, faults);
    reserved_faults(page, w + 8, w + 15, faults);
}

// Every fault of the page, by place, and at one place by kind.
#[tactic(auto, using(crate::proofs::Spots::page_steps))]
pub fn faults_of(page: &[u8; 512]) -> Faults
    ensures { result ≡ listing (faults_of page.now) }
{
    let mut faults = no_faults();
    for place in 0..5 {
        condition_faults(page, place, &mut faults);
    }
    reserved_faults(page, 0x50, 0xFF, &mut faults);
    faults
}
