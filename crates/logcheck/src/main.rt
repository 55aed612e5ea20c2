// Reads a log page of another maker, for the test bench, and writes the report of it. What stands in the report, `report` decides.
#![tactic(auto)]

ghost use Rattle.std.specs.Prelude.{◌≤◌, length};

use intake::Source;
use std::env::FillError;
use std::io::{Print, Read};
use std::rt::{Env, Files};
use std::{fs, io};

// Reads until the buffer is full, the input ends or a read fails, and answers how many bytes came.
// Stays a `while`: std's read_exact and read_to_end say little after an error, and how many bytes came is needed.
fn read_full(reader: &mut impl Read, page: &mut [u8; 4096]) -> usize
    ensures { result ≤ length page.new }
{
    let mut done = 0;
    while done < page.len() {
        let n = reader.read(&mut page[done..]).unwrap_or(0);
        if n == 0 {
            break;
        }
        done += n;
    }
    done
}

// Writes the report of what can be read, or answers why it cannot. The buffer is larger than a page, so that a longer file is told apart.
// `read_full` stops at the end of the input and at a read that fails: one more read tells which it was.
fn check(reader: &mut impl Read, writer: &impl Print) -> io::Result<()> {
    let mut page = [0u8; 4096];
    let n = read_full(reader, &mut page);
    let mut rest = [0u8; 1];
    reader.read(&mut rest)?;
    let mut out = [0u8; 9216];
    let len = report::put_report(&page[..n], &mut out);
    let _ = writer.write_all(&out[..len]);
    Ok(())
}

// Says on standard error what could not be done, and with what.
fn complain(errors: &impl Print, what: &[u8], with: &[u8]) {
    let _ = errors.write_all(b"logcheck: cannot ");
    let _ = errors.write_all(what);
    let _ = errors.write_all(with);
    let _ = errors.write_all(b"\n");
}

// How many arguments there are, the program's own name among them.
// Stays here and in replay: a library's public function owes a promise, and no clause can say what the environment hands over.
fn argument_count(rt: &impl Env) -> usize {
    let mut first = [0u8; 1];
    (0..usize::MAX)
        .find(|i| matches!(rt.arg(*i, &mut first), Err(FillError::NotPresent)))
        .unwrap_or(usize::MAX)
}

// A name that is not UTF-8 cannot be opened: a path of std is text.
// Stays here and in replay: a library's public function owes a promise, and no clause can say what the environment hands over.
fn open<R: Files>(rt: &R, name: &[u8]) -> Option<R::File> {
    let path = str::from_utf8(name).ok()?;
    fs::open(rt, path).ok()
}

fn check_standard(reader: &mut impl Read, writer: &impl Print, errors: &impl Print) {
    if check(reader, writer).is_err() {
        complain(errors, b"read ", b"standard input");
    }
}

fn check_file(rt: &(impl Env + Files + Print), errors: &impl Print, argument: usize) {
    let mut name = [0u8; 65536];
    let n = rt.arg(argument, &mut name).unwrap_or(0);
    match open(rt, &name[..n]) {
        Some(mut file) => {
            if check(&mut file, rt).is_err() {
                complain(errors, b"read ", &name[..n]);
            }
        }
        None => complain(errors, b"open ", &name[..n]),
    }
}

fn main(rt: HostRuntime) {
    let errors = rt.stderr();
    match intake::source_by(argument_count(&rt)) {
        Source::Standard => check_standard(&mut rt.stdin(), &rt, &errors),
        Source::File(argument) => check_file(&rt, &errors, argument),
        Source::Misused => {
            let usage =
                b"usage: logcheck [FILE]: reads a log page of 512 bytes from FILE, or from standard input\n";
            let _ = errors.write_all(usage);
        }
    }
}
