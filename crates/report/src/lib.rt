// The report of another maker's log page, for the test bench: its settings as replay's `table` prints them, its faults in words, and how many.
// Put piece by piece, not by Display and `write!`: `write!` promises what it wrote only where it answers Ok, and no clause of std says that it does.
#![tactic(auto, using(digits::proofs::Digits::one_by_one))]

ghost use Rattle.std.specs.Prelude.{◌++◌, map, ◌≡◌, ◌<◌, Ok};
ghost use Rattle.conditions.specs.Conditions.{condition_at};
ghost use Rattle.digits.specs.Sheets.{written, wrote_all, line_text};
ghost use Rattle.digits.specs.Texts.{said, cut};
ghost use Rattle.report.specs.Report.{not_read_text, page_row, row_of, place_text, owner_text, kind_text};
ghost use Rattle.report.specs.Report.{fault_text, many_text, total_text, texts_by, report_lines, Reported};

use conditions::Condition;
use digits::{Sheet, Text};
use drive::Record;
use faults::{Fault, FaultKind, Faults};
use refusals::Refusal;

fn not_read(r: Refusal) -> Text
    ensures { said result ≡ cut (not_read_text r) }
{
    let number = Text::of(b"refused ").put_decimal(refusals::number(r));
    number.put_all(b": the page is not 512 bytes")
}

// ---- the settings

fn settings_row(c: Condition, r: Record) -> Text
    ensures { said result ≡ cut (page_row c (Ok r)) }
{
    let name = Text::of(table::name_of(c)).pad_to(9);
    table::put_recovery(table::put_record(name, r), r)
}

fn page_row(c: Condition, found: Result<Record, Refusal>) -> Text
    ensures { said result ≡ cut (page_row c found) }
{
    match found {
        Ok(r) => settings_row(c, r),
        Err(r) => not_read(r),
    }
}

// The row of the condition of that place.
fn row_at(page: &[u8], place: usize) -> Text
    requires { place < 5 }
    ensures { said result ≡ cut (row_of page.now (condition_at place)) }
{
    let c = conditions::condition_at(place);
    page_row(c, reader::page_record(page, c))
}

// ---- the faults

fn put_place(t: Text, w: u32) -> Text
    ensures { said result ≡ cut (said t ++ place_text w) }
{
    t.put_hex(w / 16).put_hex(w % 16)
}

fn put_owner(t: Text, w: u32) -> Text
    ensures { said result ≡ cut (said t ++ owner_text w) }
{
    if w < 0x50 {
        let c = conditions::condition_at((w / 16) as usize);
        return t
            .put_all(table::name_of(c))
            .put_all(b" +")
            .put_decimal(w % 16);
    }
    t.put_all(b"after the conditions")
}

fn kind_words(kind: FaultKind) -> &'static [u8]
    ensures { result.now ≡ kind_text kind }
{
    match kind {
        FaultKind::ReservedWord => b"a reserved word is not zero",
        FaultKind::ReservedBits => b"a flag word has reserved bits set",
        FaultKind::SetUnsupported =>
            b"the condition is not supported, yet another of its bits or numbers is set",
        FaultKind::NoTimer => b"enabled with timer zero",
        FaultKind::SavedOff => b"saved differs from default, yet not saveable",
    }
}

fn fault_line(f: Fault) -> Text
    ensures { said result ≡ cut (fault_text f) }
{
    let place = put_place(Text::of(b"word "), f.place).put_all(b"h, ");
    put_owner(place, f.place)
        .put_all(b": ")
        .put_all(kind_words(f.kind))
}

fn many_line(n: u32) -> Text
    ensures { said result ≡ cut (many_text n) }
{
    let faults = Text::empty().put_decimal(n).put_all(b" faults");
    faults.put_either(64 < n, b", of which the first 64 are listed", b"")
}

// Stays a match: the words of a number, by whether it is none, one or many.
fn total_line(n: u32) -> Text
    ensures { said result ≡ cut (total_text n) }
{
    match n {
        0 => Text::of(b"no fault"),
        1 => Text::of(b"1 fault"),
        _ => many_line(n),
    }
}

// ---- the whole

// The report of a page that is read.
#[tactic(auto, unfolding(digits::specs::Sheets::wrote_all))]
fn put_found(page: &[u8], f: Faults, out: &mut Sheet<'_>)
    ensures { written out.new ≡ wrote_all (written out.old) (map line_text (texts_by page.now (Ok f))) }
{
    out.put_line(Text::of(
        b"condition supp save chng       default s         saved s       current s  recovery ms",
    ));
    for place in 0..5 {
        out.put_line(row_at(page, place));
    }
    let listed = &f.listed[..faults::listed_count(f.total)];
    for fault in listed {
        out.put_line(fault_line(*fault));
    }
    out.put_line(total_line(f.total));
}

fn put_lines(page: &[u8], out: &mut Sheet<'_>)
    ensures { written out.new ≡ wrote_all (written out.old) (report_lines page.now) }
{
    match reader::page_faults(page) {
        Ok(faults) => put_found(page, faults, out),
        Err(r) => out.put_line(not_read(r)),
    }
}

// The same into a buffer that holds every report: its first bytes, as many as are answered, are the whole report.
pub fn put_report(page: &[u8], out: &mut [u8; 9216]) -> usize
    ensures { Reported page.now result out.new }
{
    let mut sheet = Sheet::on(out, 0);
    put_lines(page, &mut sheet);
    sheet.len
}
