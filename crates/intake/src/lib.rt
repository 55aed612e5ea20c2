// What a program reads: where its input comes from, and which of the bytes that replay has read it answers next.
#![tactic(auto)]

ghost use Rattle.std.specs.Prelude.{cond, ◌≡◌};
ghost use Rattle.intake.specs.Intake.{source_of, clamped, is_answered, pace_next};

// Where the input comes from: standard input, or the file that an argument names. The program may be misused.
#[derive(Clone, Copy)]
pub enum Source {
    Standard,
    File(usize),
    Misused,
}

// The places of the input buffer between which bytes stand that were read and not answered, and whether the program goes on.
#[derive(Clone, Copy)]
pub struct Pace {
    pub from: usize,
    pub to: usize,
    pub goes: bool,
}

// Where the input comes from, by the number of arguments, the program's own name among them.
pub fn source_by(args: usize) -> Source
    ensures { result ≡ source_of args }
{
    match args {
        0 | 1 => Source::Standard,
        2 => Source::File(1),
        _ => Source::Misused,
    }
}

// Whether all that was read has been answered, so that the program is to read.
pub fn is_answered(from: usize, to: usize) -> bool
    ensures { result ≡ is_answered from to }
{
    from >= to
}

// How many bytes a read gave: none if it failed, and no more than there is room for.
fn taken(got: Option<usize>, most: usize) -> usize
    ensures { result ≡ clamped got most }
{
    got.unwrap_or(0).min(most)
}

// What the next turn answers: the bytes that are left or, if none are, those that the read gave, from the buffer's start on.
pub fn pace_next(from: usize, to: usize, written: bool, got: Option<usize>, most: usize) -> Pace
    ensures { result ≡ pace_next from to written (clamped got most) }
{
    if is_answered(from, to) {
        let n = taken(got, most);
        return Pace {
            from: 0,
            to: n,
            goes: written & (n > 0),
        };
    }
    Pace {
        from,
        to,
        goes: written,
    }
}

// Of n bytes, as many as are to be written out: none behind such as could not be.
pub fn to_write(written: bool, n: usize) -> usize
    ensures { result ≡ cond written n 0 }
{
    if written { n } else { 0 }
}
