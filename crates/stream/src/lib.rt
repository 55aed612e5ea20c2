// The script as a stream of bytes, in whatever pieces it comes, and the turns in which the program reads, answers and writes it.
#![tactic(auto)]

ghost use Rattle.std.specs.Prelude.{◌≡◌, ◌+◌, ◌≤◌, ◌<◌, min, length, take};
ghost use Rattle.intake.specs.Intake.{clamped};
ghost use Rattle.stream.specs.Streams.{stream_of, answered, fed_all, finished, bytes_between};
ghost use Rattle.stream.specs.Turns.{Turned, Starts, standing_of};

use blocks::Session;
use digits::Sheet;

// Stays lengths and places beside buffers: the program owns the buffers, and `go_on` is lent them as arrays.
// Where a run of a script stands: its session, how many bytes of an unended line are kept, how far `out` is written and the input read.
#[derive(Clone, Copy)]
pub struct Run {
    pub session: Session,
    pub len: usize,
    pub at: usize,
    pub from: usize,
}

// Where the program stands before a turn: its run, up to where the input buffer holds what was read, and whether it goes on.
#[derive(Clone, Copy)]
pub struct Turn {
    pub run: Run,
    pub to: usize,
    pub goes: bool,
}

pub fn start() -> Turn
    ensures { Starts result }
{
    Turn {
        run: Run {
            session: blocks::start(),
            len: 0,
            at: 0,
            from: 0,
        },
        to: 0,
        goes: true,
    }
}

// Answers the line that is kept, and keeps none of it. No answer has more than 4,096 bytes.
fn end_line(r: Run, line: &[u8; 4001], out: &mut [u8; 16384]) -> Run
    requires { r.at + 4096 ≤ length out.old }
    ensures { (stream_of result line.now out.new ≡ answered (stream_of r line.now out.old)) × (result.from ≡ r.from) × (result.at ≤ r.at + 4096) }
{
    let n = r.len.min(line.len());
    let mut sheet = Sheet::on(out, r.at);
    let session = replies::respond(r.session, &line[..n], &mut sheet);
    Run {
        session,
        len: 0,
        at: sheet.len,
        from: r.from,
    }
}

// Goes on from `r.from` to the end of that line or of the input.
fn feed_line(r: Run, input: &[u8], line: &mut [u8; 4001], out: &mut [u8; 16384]) -> Run
    requires from_in_bounds { r.from < length input.now }
    requires at_in_bounds { r.at + 4096 ≤ length out.old }
    ensures { (stream_of result line.new out.new ≡ fed_all (stream_of r line.old out.old) (bytes_between r.from result.from input.now)) × (r.from < result.from) × (result.from ≤ length input.now) × (result.at ≤ length out.new) }
{
    let from = r.from;
    let end = words::line_end(input, from);
    let mut run = r;
    run.len = words::append(line, r.len, &input[from..end]);
    run.from = end;
    if end == input.len() {
        return run;
    }
    run.from = end + 1;
    end_line(run, line, out)
}

// Goes on from `r.from` to the end of the input, or until `out`, which is written from its start, may have no room for another answer.
fn feed(r: Run, input: &[u8], line: &mut [u8; 4001], out: &mut [u8; 16384]) -> Run
    requires { r.at ≡ 0 }
    ensures { (stream_of result line.new out.new ≡ fed_all (stream_of r line.old out.old) (bytes_between r.from result.from input.now)) × (r.from ≤ result.from) × (min (r.from + 1) (length input.now) ≤ result.from) × (result.at ≤ length out.new) }
{
    // Stays a while: a turn goes on by a line, and the room that is left decides whether there is another.
    let room = out.len() - 4096;
    let mut run = r;
    while (run.from < input.len()) & (run.at <= room) {
        run = feed_line(run, input, line, out);
    }
    run
}

// The end of the input.
fn finish(r: Run, line: &[u8; 4001], out: &mut [u8; 16384]) -> usize
    requires { r.at + 8192 ≤ length out.old }
    ensures { (take result out.new ≡ finished (stream_of r line.now out.old)) × (result ≤ length out.new) }
{
    let last = end_line(r, line, out);
    if blocks::is_open(last.session.block) {
        let mut sheet = Sheet::on(out, last.at);
        replies::put_ok(false, &mut sheet);
        return sheet.len;
    }
    last.at
}

// A turn of the program, which has written out what was printed and then, if all that it had read was answered, has read: it is told whether
// all could be written and what `read` answered. It answers what came, until `out` fills up. If nothing came, the script is at its end.
pub fn go_on(
    t: Turn,
    written: bool,
    got: Option<usize>,
    input: &[u8; 65536],
    line: &mut [u8; 4001],
    out: &mut [u8; 16384],
) -> Turn
    requires { t.to ≤ 65536 }
    ensures { Turned (standing_of t input.now line.old out.old) written (take (clamped got 65536) input.now) (standing_of result input.now line.new out.new) × (result.to ≤ 65536) × (result.run.at ≤ length out.new) }
{
    let pace = intake::pace_next(t.run.from, t.to, written, got, 65536);
    let mut run = Run {
        at: 0,
        from: pace.from,
        ..t.run
    };
    if pace.goes {
        let to = pace.to;
        let fed = feed(run, &input[..to], line, out);
        return Turn {
            run: fed,
            to,
            goes: true,
        };
    }
    let n = finish(run, line, out);
    run.at = intake::to_write(written, n);
    Turn {
        run,
        to: 0,
        goes: false,
    }
}
