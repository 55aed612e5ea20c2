// Transition counts: how often the drive went into each condition, by a timer and otherwise, and the log page that shows it (SPC-4, page 1Ah).
#![tactic(auto)]

ghost use Rattle.std.specs.Prelude.{◌≡◌, ◌+◌, ◌<◌, ◌≤◌};
ghost use Rattle.std.proofs.Math.Seq.{paste};
ghost use Rattle.transitions.specs.Counts.{held_full, one_entry, column_by, counted_in, table_of, flat_of, table_after};
ghost use Rattle.transitions.specs.Page.{row_sum, parameter_bytes, transition_bytes};

use conditions::{Cause, Power};

// The table of six rows of two that the flat row stands for.
pub fn table_of(counts: [u32; 12]) -> [[u32; 2]; 6]
    ensures { result ≡ table_of counts }
{
    [
        [counts[0], counts[1]],
        [counts[2], counts[3]],
        [counts[4], counts[5]],
        [counts[6], counts[7]],
        [counts[8], counts[9]],
        [counts[10], counts[11]],
    ]
}

// The table as the record keeps it.
pub fn flat_of(t: [[u32; 2]; 6]) -> [u32; 12]
    ensures { result ≡ flat_of t }
{
    [
        t[0][0], t[0][1], t[1][0], t[1][1], t[2][0], t[2][1], t[3][0], t[3][1], t[4][0], t[4][1],
        t[5][0], t[5][1],
    ]
}

// One more; at the top it stays.
fn one_entry(n: u32) -> u32
    ensures { result ≡ one_entry n }
{
    n.saturating_add(1)
}

// The cell is read from the copy that is written, so that there is one.
fn count_in(t: [[u32; 2]; 6], row: usize, column: usize) -> [[u32; 2]; 6]
    requires { (row < 6) × (column < 2) }
    ensures { result ≡ counted_in row column t }
{
    let mut next = t;
    next[row][column] = one_entry(next[row][column]);
    next
}

// Stays a match: a table of the papers, a case for each cause.
fn column_by(why: Cause) -> usize
    ensures { (result ≡ column_by why) × (result < 2) }
{
    match why {
        Cause::Timer => 0,
        Cause::Command => 1,
    }
}

// The counts once a condition is entered: one more in its cell, if it is another than the one before.
// By the entered power first: where a caller enters Active, or keeps the power that it read, what is left to ask and to count is then fixed.
pub fn count_entry(t: [[u32; 2]; 6], before: Power, entered: Power) -> [[u32; 2]; 6]
    ensures { result ≡ table_after before entered t }
{
    let row = conditions::depth_of(before);
    match entered {
        Power::Active => { if row == 0 { t } else { count_in(t, 0, 1) } }
        Power::Low(c, why) => {
            let next = conditions::place_of(c) + 1;
            if row == next {
                t
            } else {
                count_in(t, next, column_by(why))
            }
        }
    }
}

// ---- the page

// The sum of two counts, cut at the top.
fn sum_of(x: u32, y: u32) -> u32
    ensures { result ≡ held_full (x + y) }
{
    x.saturating_add(y)
}

// What the page shows of a row.
pub fn row_sum(t: [[u32; 2]; 6], row: usize) -> u32
    requires { row < 6 }
    ensures { result ≡ row_sum row t }
{
    sum_of(t[row][0], t[row][1])
}

// A parameter of the page: its code, control byte 03h, length 4, and the count, high byte first.
fn parameter(code: u8, n: u32) -> [u8; 8]
    ensures { result ≡ parameter_bytes code n }
{
    let [b3, b2, b1, b0] = n.to_be_bytes();
    [0, code, 0x03, 4, b3, b2, b1, b0]
}

// A row's parameter, at its place of the page.
fn put_row(page: [u8; 52], at: usize, code: u8, t: [[u32; 2]; 6], row: usize) -> [u8; 52]
    requires { (at + 8 ≤ 52) × (row < 6) }
    ensures { result ≡ paste page at (parameter_bytes code (row_sum row t)) 8 }
{
    let mut next = page;
    rows::copy_in(&parameter(code, row_sum(t, row)), &mut next, at);
    next
}

// The Power Condition Transitions page. Standby_z, the last row of the table, comes before Standby_y.
pub fn page_of(t: [[u32; 2]; 6]) -> [u8; 52]
    ensures { result ≡ transition_bytes t }
{
    let mut page = [0u8; 52];
    page[0] = 0x1A;
    page[3] = 0x30;
    let active = put_row(page, 4, 0x01, t, 0);
    let a = put_row(active, 12, 0x02, t, 1);
    let b = put_row(a, 20, 0x03, t, 2);
    let c = put_row(b, 28, 0x04, t, 3);
    let z = put_row(c, 36, 0x08, t, 5);
    put_row(z, 44, 0x09, t, 4)
}
