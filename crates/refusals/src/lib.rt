// Why a call is refused: the numbers of documents 01 and 02, the sense that goes with each, and the verdict over the rows that a call is held to.
// No unit is needed.
#![tactic(auto)]

ghost use Rattle.std.specs.Prelude.{[], ◌∷◌, ◌≡◌, Some};
ghost use Rattle.refusals.specs.Refusals.{number_of, sense_of, ◌gives◌, lowest};
ghost use Rattle.refusals.specs.Verdicts.{rows_of_host, rows_of_record, rows_of_epc, rows_of_medium, rows_of_sense, rows_of_page, rows_of_new_page, rows_of_reader, rows_of_cdb, rows_of_start_stop, rows_of_next, rows_of_answer};

use senses::Sense;

// Why a call was refused: document 01's numbers 1 to 10, and document 02's 11, in the order in which they are looked at.
#[derive(Clone, Copy, PartialEq, Eq)]
pub enum Refusal {
    BadLength,
    BadHost,
    BadRecord,
    CommandOut,
    NoSuchPage,
    HasNone,
    OwnWaiting,
    BadOpcode,
    BadField,
    IsStopped,
    Aborted,
}

// Stays a match: a table of the papers, a case for each refusal.
pub fn number(r: Refusal) -> u32
    ensures { result ≡ number_of r }
{
    match r {
        Refusal::BadLength => 1,
        Refusal::BadHost => 2,
        Refusal::BadRecord => 3,
        Refusal::CommandOut => 4,
        Refusal::NoSuchPage => 11,
        Refusal::HasNone => 5,
        Refusal::OwnWaiting => 6,
        Refusal::BadOpcode => 7,
        Refusal::BadField => 8,
        Refusal::IsStopped => 9,
        Refusal::Aborted => 10,
    }
}

fn with_sense(key: u8, asc: u8, ascq: u8) -> Option<Sense>
    ensures { result ≡ Some (record { key = key; asc = asc; ascq = ascq }) }
{
    Some(Sense { key, asc, ascq })
}

pub fn sense_of(r: Refusal) -> Option<Sense>
    ensures { result ≡ sense_of r }
{
    match r {
        Refusal::BadLength => None,
        Refusal::BadHost => None,
        Refusal::BadRecord => None,
        Refusal::CommandOut => None,
        Refusal::NoSuchPage => None,
        Refusal::HasNone => None,
        Refusal::OwnWaiting => with_sense(0x02, 0x04, 0x07),
        Refusal::BadOpcode => with_sense(0x05, 0x20, 0x00),
        Refusal::BadField => with_sense(0x05, 0x24, 0x00),
        Refusal::IsStopped => with_sense(0x02, 0x04, 0x02),
        Refusal::Aborted => None,
    }
}

// One row of the table.
fn refused_if(applies: bool, r: Refusal) -> Result<(), Refusal>
    ensures { result ≡ lowest ((applies gives r) ∷ []) }
{
    if applies { Err(r) } else { Ok(()) }
}

// Ticks, resets and manufacture: number 3.
pub fn record_verdict(ok: bool) -> Result<(), Refusal>
    ensures { result ≡ lowest (rows_of_record ok) }
{
    refused_if(!ok, Refusal::BadRecord)
}

// Three rows in their order: those that follow speak only where none before them applies.
fn first_of(a: bool, x: Refusal, b: bool, y: Refusal, c: bool, z: Refusal) -> Result<(), Refusal>
    ensures { result ≡ lowest ((a gives x) ∷ (b gives y) ∷ (c gives z) ∷ []) }
{
    refused_if(a, x).and(refused_if(b, y)).and(refused_if(c, z))
}

// Every call of a host but the answer: numbers 2, 3 and 4.
fn host_verdict(host: u32, ok: bool, out: bool) -> Result<(), Refusal>
    ensures { result ≡ lowest (rows_of_host host ok out) }
{
    first_of(
        3 < host,
        Refusal::BadHost,
        !ok,
        Refusal::BadRecord,
        out,
        Refusal::CommandOut,
    )
}

// EPC: numbers 3, 4 and 10.
pub fn epc_verdict(ok: bool, out: bool, aborted: bool) -> Result<(), Refusal>
    ensures { result ≡ lowest (rows_of_epc ok out aborted) }
{
    first_of(
        !ok,
        Refusal::BadRecord,
        out,
        Refusal::CommandOut,
        aborted,
        Refusal::Aborted,
    )
}

// Read and write: numbers 2, 3, 4 and 9.
pub fn medium_verdict(host: u32, ok: bool, out: bool, stopped: bool) -> Result<(), Refusal>
    ensures { result ≡ lowest (rows_of_medium host ok out stopped) }
{
    host_verdict(host, ok, out).and(refused_if(stopped, Refusal::IsStopped))
}

// REQUEST SENSE: numbers 1 to 4.
pub fn sense_verdict(size: usize, host: u32, ok: bool, out: bool) -> Result<(), Refusal>
    ensures { result ≡ lowest (rows_of_sense size host ok out) }
{
    refused_if(size != 18, Refusal::BadLength).and(host_verdict(host, ok, out))
}

// The log page and page 1Ah, which are so many bytes: numbers 1 and 3.
pub fn page_verdict(due: usize, size: usize, ok: bool) -> Result<(), Refusal>
    ensures { result ≡ lowest (rows_of_page due size ok) }
{
    refused_if(size != due, Refusal::BadLength).and(record_verdict(ok))
}

// A new page, which is 512 bytes: numbers 1, 3 and 11.
pub fn new_page_verdict(size: usize, ok: bool, lacking: bool) -> Result<(), Refusal>
    ensures { result ≡ lowest (rows_of_new_page size ok lacking) }
{
    first_of(
        size != 512,
        Refusal::BadLength,
        !ok,
        Refusal::BadRecord,
        lacking,
        Refusal::NoSuchPage,
    )
}

// A page that another maker wrote: number 1.
pub fn reader_verdict(size: usize) -> Result<(), Refusal>
    ensures { result ≡ lowest (rows_of_reader size) }
{
    refused_if(size != 512, Refusal::BadLength)
}

// A CDB: numbers 6, 7 and 8.
fn cdb_verdict(own: bool, opcode: u8, listed: bool) -> Result<(), Refusal>
    ensures { result ≡ lowest (rows_of_cdb own opcode listed) }
{
    first_of(
        own,
        Refusal::OwnWaiting,
        opcode != 0x1B,
        Refusal::BadOpcode,
        !listed,
        Refusal::BadField,
    )
}

// START STOP UNIT: numbers 1 to 4, then the CDB's.
pub fn start_stop_verdict(
    size: usize,
    host: u32,
    ok: bool,
    out: bool,
    own: bool,
    opcode: u8,
    listed: bool,
) -> Result<(), Refusal>
    ensures { result ≡ lowest (rows_of_start_stop size host ok out own opcode listed) }
{
    let before = refused_if(size != 6, Refusal::BadLength).and(host_verdict(host, ok, out));
    before.and(cdb_verdict(own, opcode, listed))
}

// The next command: numbers 2, 3, 4 and 5.
pub fn next_verdict(host: u32, ok: bool, out: bool, waiting: bool) -> Result<(), Refusal>
    ensures { result ≡ lowest (rows_of_next host ok out waiting) }
{
    host_verdict(host, ok, out).and(refused_if(!waiting, Refusal::HasNone))
}

// The answer: numbers 2, 3 and 5.
pub fn answer_verdict(host: u32, ok: bool, own: bool) -> Result<(), Refusal>
    ensures { result ≡ lowest (rows_of_answer host ok own) }
{
    first_of(
        3 < host,
        Refusal::BadHost,
        !ok,
        Refusal::BadRecord,
        !own,
        Refusal::HasNone,
    )
}
