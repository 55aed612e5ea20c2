// A reader that looks at another maker's log page where it lies, and copies nothing (document 02, request (v)): what a condition's record is there,
// and what is wrong with the page.
#![tactic(auto)]

ghost use Rattle.std.specs.Prelude.{◌≡◌, Ok, Err};
ghost use Rattle.std.specs.Result.{MatchResult};
ghost use Rattle.conditions.specs.Conditions.{condition_at};
ghost use Rattle.refusals.specs.Refusals.{lowest};
ghost use Rattle.reader.specs.PageCalls.{reader_rows, record_outcome, faults_outcome};

use conditions::Condition;
use drive::Record;
use faults::Faults;
use refusals::Refusal;

// The page where it lies, and the place of a condition in falling power. A place above 4 is read as the first.
#[derive(Clone, Copy)]
pub struct Reader<'a> {
    pub page: &'a [u8],
    pub place: usize,
}

// The page as one of 512 bytes by its type, or number 1.
fn whole(bytes: &[u8]) -> Result<&[u8; 512], Refusal>
    ensures { MatchResult result (λ page. (page.now ≡ bytes.now) × (lowest (reader_rows bytes.now) ≡ Ok tt)) (λ r. lowest (reader_rows bytes.now) ≡ Err r) }
{
    refusals::reader_verdict(bytes.len())?;
    Ok(bytes.try_into().unwrap())
}

// The work on slice and number: the record of the condition of that place.
#[tactic(auto, unfolding(crate::specs::PageCalls::record_outcome))]
fn record_in(bytes: &[u8], place: usize) -> Result<Record, Refusal>
    ensures { result ≡ record_outcome bytes.now (condition_at place) }
{
    let page = whole(bytes)?;
    let at = if place < 5 { place } else { 0 };
    Ok(faults::record_of(page, at))
}

// And what is wrong with a page, given by its bytes.
#[tactic(auto, unfolding(crate::specs::PageCalls::faults_outcome))]
fn faults_in(bytes: &[u8]) -> Result<Faults, Refusal>
    ensures { result ≡ faults_outcome bytes.now }
{
    Ok(faults::faults_of(whole(bytes)?))
}

// A reader of the page, at a condition's place. It looks at nothing: another length is refused when it is read.
pub fn open_page<'a>(page: &'a [u8], place: usize) -> Reader<'a>
    ensures { (result.page ≡ page.entry) × (result.place ≡ place) }
{
    Reader { page, place }
}

// The record at the reader's place.
pub fn read_record<'a>(r: Reader<'a>) -> Result<Record, Refusal>
    ensures { result ≡ record_outcome r.entry.page.now (condition_at r.entry.place) }
{
    record_in(r.page, r.place)
}

// The faults of the reader's page, whatever its place.
pub fn read_faults<'a>(r: Reader<'a>) -> Result<Faults, Refusal>
    ensures { result ≡ faults_outcome r.entry.page.now }
{
    faults_in(r.page)
}

// The same with plain parameters, for callers that hold no reader.
fn record_at(page: &[u8], place: usize) -> Result<Record, Refusal>
    ensures { result ≡ record_outcome page.now (condition_at place) }
{
    read_record(open_page(page, place))
}

// A condition's record as the page has it.
pub fn page_record(page: &[u8], c: Condition) -> Result<Record, Refusal>
    ensures { result ≡ record_outcome page.now c }
{
    record_at(page, conditions::place_of(c))
}

// What is wrong with the page: how many faults, and the first 64.
pub fn page_faults(page: &[u8]) -> Result<Faults, Refusal>
    ensures { result ≡ faults_outcome page.now }
{
    read_faults(open_page(page, 0))
}
