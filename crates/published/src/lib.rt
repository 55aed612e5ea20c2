// The bytes of the two log pages of published ACS-2, from five records (document 02, request (vi)). No unit is needed.
#![tactic(auto)]

ghost use Rattle.std.specs.Prelude.{◌≡◌};
ghost use Rattle.published.specs.Descriptors.{flag_byte, tenths_up, low_first, named_bytes, descriptor_page, lacks_page};

use drive::{Edition, Millis, Record, Tenths};

// From bit 7 down: supported, saveable, changeable, and whether default, saved and current are on.
fn flag_byte(r: Record) -> u8
    ensures { result ≡ flag_byte r }
{
    let made = pages::flag_at(0x80, r.supported)
        + pages::flag_at(0x40, r.saveable)
        + pages::flag_at(0x20, r.changeable);
    let on = pages::flag_at(0x10, r.default.enabled)
        + pages::flag_at(0x08, r.saved.enabled)
        + pages::flag_at(0x04, r.current.enabled);
    pages::low(made + on)
}

// A recovery time in tenths of a second, rounded up.
fn tenths_up(recovery: Millis) -> Tenths
    ensures { result.0 ≡ tenths_up recovery.0 }
{
    Tenths(recovery.0.div_ceil(100))
}

// A number's four bytes, low first.
fn low_first(n: u32) -> [u8; 4]
    ensures { result ≡ low_first n }
{
    n.to_le_bytes()
}

// The bytes of a descriptor that the request names: the rest of its 64 are zero.
fn named_bytes(r: Record) -> [u8; 20]
    ensures { result ≡ named_bytes r }
{
    let mut bytes = [0u8; 20];
    bytes[1] = flag_byte(r);
    bytes[4..8].copy_from_slice(&low_first(r.default.timer.0));
    bytes[8..12].copy_from_slice(&low_first(r.saved.timer.0));
    bytes[12..16].copy_from_slice(&low_first(r.current.timer.0));
    bytes[16..20].copy_from_slice(&low_first(tenths_up(r.recovery).0));
    bytes
}

// Page 0, built whole: Idle_A, Idle_B and Idle_C.
fn idle_page(records: [Record; 5]) -> [u8; 512]
    ensures { result ≡ descriptor_page 0 records }
{
    let mut page = [0u8; 512];
    rows::copy_in(&named_bytes(records[0]), &mut page, 0);
    rows::copy_in(&named_bytes(records[1]), &mut page, 64);
    rows::copy_in(&named_bytes(records[2]), &mut page, 128);
    page
}

// Page 1, built whole: Standby_y and Standby_z.
fn standby_page(records: [Record; 5]) -> [u8; 512]
    ensures { result ≡ descriptor_page 1 records }
{
    let mut page = [0u8; 512];
    rows::copy_in(&named_bytes(records[3]), &mut page, 384);
    rows::copy_in(&named_bytes(records[4]), &mut page, 448);
    page
}

// The page of a number that is 0 or 1: a higher one is refused before it is made.
pub fn descriptor_page(number: u32, records: [Record; 5]) -> [u8; 512]
    ensures { result ≡ descriptor_page number records }
{
    if number == 0 {
        idle_page(records)
    } else {
        standby_page(records)
    }
}

// A draft unit has neither page, a published one no page above 1.
pub fn lacks_page(e: Edition, number: u32) -> bool
    ensures { result ≡ lacks_page e number }
{
    match e {
        Edition::Draft => true,
        Edition::Published => 1 < number,
    }
}
