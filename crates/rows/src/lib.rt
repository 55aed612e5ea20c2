// Rows: what holds of any list that is read with its places, the function that fills a lent buffer, and the choice between two values.
#![tactic(auto)]

ghost use Rattle.std.specs.Prelude.{cond, ◌+◌, ◌≤◌, ◌≡◌, length};
ghost use Rattle.std.proofs.Math.Seq.{paste};

// Writes `src` into `dst` from the place `at` on. Behind a reference the layer writes by it and by `Faults::add` alone.
// Stays beside the slice's own method: what its callers promise says `paste`, which their proofs join page by page.
pub fn copy_in(src: &[u8], dst: &mut [u8], at: usize)
    requires { at + length src.now ≤ length dst.old }
    ensures { dst.new ≡ paste dst.old at src.now (length src.now) }
{
    dst[at..at + src.len()].copy_from_slice(src);
}

// One of two values, by a flag: each field of a record that a call may leave as it was is picked by it.
pub fn pick<T: Copy>(first: bool, x: T, y: T) -> T
    ensures { result ≡ cond first x y }
{
    if first { x } else { y }
}
