// Reads a script of calls and writes what each answered: docs/replay.md. What is read, and what is answered when, `intake` and `stream` decide.
#![tactic(auto)]

ghost use Rattle.std.specs.Prelude.{◌≤◌, length};

use intake::Source;
use std::env::FillError;
use std::fs;
use std::io::{Print, Read};
use std::rt::{Env, Files};

// Writes out the first n bytes; false if that cannot be done.
fn print(writer: &impl Print, out: &[u8; 16384], n: usize) -> bool
    requires { n ≤ length out.now }
{
    let all: &[u8] = out;
    writer.write_all(&all[..n]).is_ok()
}

// Reads once, if that is asked: how many bytes came, or none where it failed.
fn read_if(asked: bool, reader: &mut impl Read, input: &mut [u8; 65536]) -> Option<usize> {
    if asked {
        reader.read(input).ok()
    } else {
        Some(0)
    }
}

// The answers are written before it waits for input. A proved loop has to end, and nothing says that the input does: so the turns are counted,
// up to a number that no run reaches.
fn replay(reader: &mut impl Read, writer: &impl Print) {
    let mut input = [0u8; 65536];
    let mut line = [0u8; 4001];
    let mut out = [0u8; 16384];
    let mut turn = stream::start();
    for _ in 0..u64::MAX {
        if !turn.goes {
            break;
        }
        let written = print(writer, &out, turn.run.at);
        let asked = written & intake::is_answered(turn.run.from, turn.to);
        let got = read_if(asked, reader, &mut input);
        turn = stream::go_on(turn, written, got, &input, &mut line, &mut out);
    }
    print(writer, &out, turn.run.at);
}

// How many arguments there are, the program's own name among them.
// Stays here and in logcheck: a library's public function owes a promise, and no clause can say what the environment hands over.
fn argument_count(rt: &impl Env) -> usize {
    let mut first = [0u8; 1];
    (0..usize::MAX)
        .find(|i| matches!(rt.arg(*i, &mut first), Err(FillError::NotPresent)))
        .unwrap_or(usize::MAX)
}

// A name that is not UTF-8 cannot be opened: a path of std is text.
// Stays here and in logcheck: a library's public function owes a promise, and no clause can say what the environment hands over.
fn open<R: Files>(rt: &R, name: &[u8]) -> Option<R::File> {
    let path = str::from_utf8(name).ok()?;
    fs::open(rt, path).ok()
}

fn replay_file(rt: &(impl Env + Files + Print), errors: &impl Print, argument: usize) {
    let mut name = [0u8; 65536];
    let n = rt.arg(argument, &mut name).unwrap_or(0);
    match open(rt, &name[..n]) {
        Some(mut file) => replay(&mut file, rt),
        None => {
            let _ = errors.write_all(b"replay: cannot open ");
            let _ = errors.write_all(&name[..n]);
            let _ = errors.write_all(b"\n");
        }
    }
}

fn main(rt: HostRuntime) {
    let errors = rt.stderr();
    match intake::source_by(argument_count(&rt)) {
        Source::Standard => replay(&mut rt.stdin(), &rt),
        Source::File(argument) => replay_file(&rt, &errors, argument),
        Source::Misused => {
            let usage = b"usage: replay [FILE]: reads a script from FILE, or from standard input\n";
            let _ = errors.write_all(usage);
        }
    }
}
