// The bytes of the Power Conditions log page, from five records. No unit is needed.
#![tactic(auto)]

ghost use Rattle.std.specs.Prelude.{cond, [], ◌∷◌, ◌≡◌, ◌+◌, ◌/◌, ◌%◌, ◌≤◌};
ghost use Rattle.pages.specs.Logs.{bytes_of, flag_at, timer_word, named_words, log_bytes};

use drive::{Record, Setting};

// The low byte of a word.
pub fn low(w: u32) -> u8
    ensures { result ≡ w % 256 }
{
    (w % 256) as u8
}

// A flag in the bit that weighs `weight`.
pub fn flag_at(weight: u32, flag: bool) -> u32
    ensures { (result ≡ cond flag weight 0) × (result ≤ weight) }
{
    if flag { weight } else { 0 }
}

// Bit 15 supported, 14 saveable, 13 changeable.
fn flag_word(r: Record) -> u32
    ensures { result ≡ flag_at 15 r.supported + flag_at 14 r.saveable + flag_at 13 r.changeable }
{
    flag_at(0x8000, r.supported) + flag_at(0x4000, r.saveable) + flag_at(0x2000, r.changeable)
}

// A timer in one word: a published unit may have one that is too long for it.
fn timer_word(n: u32) -> u32
    ensures { result ≡ timer_word n }
{
    n.min(0xFFFF)
}

// The flag word and the timer of a setting.
fn setting_bytes(s: Setting) -> [u8; 4]
    ensures { result ≡ bytes_of (flag_at 15 s.enabled ∷ timer_word s.timer.0 ∷ []) }
{
    let [flag0, flag1, ..] = flag_at(0x8000, s.enabled).to_le_bytes();
    let [timer0, timer1, ..] = timer_word(s.timer.0).to_le_bytes();
    [flag0, flag1, timer0, timer1]
}

// The eight words of a condition that 001 names.
fn named_bytes(r: Record) -> [u8; 16]
    ensures { result ≡ bytes_of (named_words r) }
{
    let [recovery0, recovery1, ..] = r.recovery.0.to_le_bytes();
    let [flags0, flags1, ..] = flag_word(r).to_le_bytes();
    let [d0, d1, d2, d3] = setting_bytes(r.default);
    let [s0, s1, s2, s3] = setting_bytes(r.saved);
    let [c0, c1, c2, c3] = setting_bytes(r.current);
    [
        recovery0, recovery1, flags0, flags1, d0, d1, d2, d3, s0, s1, s2, s3, c0, c1, c2, c3,
    ]
}

// The Power Conditions log page, built whole: 32 bytes a condition, in falling power.
pub fn log_page(records: [Record; 5]) -> [u8; 512]
    ensures { result ≡ log_bytes records }
{
    let mut page = [0u8; 512];
    for (place, r) in records.iter().enumerate() {
        rows::copy_in(&named_bytes(*r), &mut page, 32 * place);
    }
    page
}
