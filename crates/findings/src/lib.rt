// What is found on a page that another maker wrote: the calls made over the face, and the lines that they print.
// Put piece by piece, not by Display and `write!`: `write!` promises what it wrote only where it answers Ok, and no clause of std says that it does.
#![tactic(auto, using(digits::proofs::Digits::one_by_one))]

ghost use Rattle.std.specs.Prelude.{map, ◌≡◌};
ghost use Rattle.digits.specs.Sheets.{written, wrote_all};
ghost use Rattle.digits.specs.Texts.{said, cut};
ghost use Rattle.findings.specs.Findings.{ok_total, entry_text, entries_of, listed_pieces, checked_pieces, faults_pieces, found_text, record_pieces};

use conditions::Condition;
use digits::{Sheet, Text};
use drive::Record;
use faults::{Fault, Faults};
use refusals::Refusal;

// ---- faults

fn total(n: u32) -> Text
    ensures { said result ≡ ok_total n }
{
    Text::of(b"ok").put_number(n)
}

fn entry(f: Fault) -> Text
    ensures { said result ≡ entry_text f }
{
    let number = Text::empty().put_number(power::kind_number(f.kind));
    number.put(b'@').put_hex(f.place)
}

#[tactic(auto, unfolding(digits::specs::Sheets::wrote_all))]
fn put_entries(f: Faults, out: &mut Sheet<'_>)
    ensures { written out.new ≡ wrote_all (written out.old) (map entry_text (entries_of f)) }
{
    let listed = &f.listed[..power::listed_count(f.total)];
    for fault in listed {
        out.put_text(entry(*fault));
    }
}

#[tactic(auto, using(digits::proofs::Sheets::wrote_then), unfolding(digits::specs::Sheets::wrote_all))]
fn put_listed(f: Faults, out: &mut Sheet<'_>)
    ensures { written out.new ≡ wrote_all (written out.old) (listed_pieces f) }
{
    out.put_text(total(f.total));
    put_entries(f, out);
    out.put_line(Text::empty());
}

#[tactic(auto, using(digits::proofs::Sheets::line_once), unfolding(digits::specs::Sheets::wrote_all))]
fn put_checked(checked: Result<Faults, Refusal>, out: &mut Sheet<'_>)
    ensures { written out.new ≡ wrote_all (written out.old) (checked_pieces checked) }
{
    match checked {
        Ok(f) => put_listed(f, out),
        Err(r) => out.put_line(phrases::called(Err(r))),
    }
}

// Has the page of a line checked and writes what is wrong with it.
#[tactic(auto, unfolding(crate::specs::Findings::faults_pieces))]
pub fn put_faults(len: u32, text: &[u8], out: &mut Sheet<'_>)
    ensures { written out.new ≡ wrote_all (written out.old) (faults_pieces len text.now) }
{
    let page = pairs::page_of(text, 2, len);
    put_checked(power::page_faults(&page.bytes[..page.len]), out);
}

// ---- record

fn found(r: Result<Record, Refusal>) -> Text
    ensures { said result ≡ cut (found_text r) }
{
    match r {
        Ok(record) => spelling::spell_record(Text::of(b"ok"), record),
        Err(refusal) => phrases::called(Err(refusal)),
    }
}

// Has a condition's record read from the page of a line and writes it.
#[tactic(auto, using(digits::proofs::Sheets::line_once), unfolding(digits::specs::Sheets::wrote_all, crate::specs::Findings::record_pieces))]
pub fn put_record(c: Condition, len: u32, text: &[u8], out: &mut Sheet<'_>)
    ensures { written out.new ≡ wrote_all (written out.old) (record_pieces c len text.now) }
{
    let page = pairs::page_of(text, 3, len);
    out.put_line(found(power::page_record(&page.bytes[..page.len], c)));
}
