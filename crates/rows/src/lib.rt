// The rows of a table in bytes: reading one, and refusals 7 and 8. Document 01, "A protocol table, in bytes".
// The functions assume that the bytes of the rows they look at are there, and say so in their `requires`.
#![tactic(auto)]

ghost use Rattle.std.specs.Prelude.{◌≡◌, ◌+◌, ◌*◌, ◌≤◌, ◌<◌, length, Some};
ghost use Rattle.format.specs.Verdicts.{refusal, verdict_of};
ghost use Rattle.format.specs.Format.{zero_row, rows_in, row_at};
ghost use Rattle.format.specs.Reads.{row_fits, rises, bad_row, fall_row, row_checks};

use format::{Fault, RefusalOf, Row};

pub const HEADER: usize = 9;

pub const ROW_SIZE: usize = 5;

const MOST_ITEMS: u8 = 1;

pub fn zero_row() -> Row
    ensures { result ≡ zero_row }
{
    Row {
        state: 0,
        drive: 0,
        answer: 0,
        item: 0,
        next: 0,
    }
}

pub fn row_at(b: &[u8], i: usize) -> Row
    requires { 9 + 5 * (i + 1) ≤ length b.now }
    ensures { result ≡ row_at b.now i }
{
    let at = HEADER + ROW_SIZE * i;
    Row {
        state: b[at],
        drive: b[at + 1],
        answer: b[at + 2],
        item: b[at + 3],
        next: b[at + 4],
    }
}

// Is every field of the row in its range, with n states, d letters and at most m items a row?
fn row_fits(n: u8, d: u8, m: u8, r: Row) -> bool
    ensures { result ≡ row_fits n d m r }
{
    r.state < n && r.drive < d && r.answer < 16 && r.item <= m && r.next < n
}

// Does the second row stand above the first, by state, then drive, then answer?
fn is_rising(a: Row, b: Row) -> bool
    ensures { result ≡ rises a b }
{
    (a.state, a.drive, a.answer) < (b.state, b.drive, b.answer)
}

fn bad_row(b: &[u8], i: usize) -> bool
    requires { 9 + 5 * (i + 1) ≤ length b.now }
    ensures { result ≡ bad_row b.now i }
{
    !row_fits(b[4], b[7], MOST_ITEMS, row_at(b, i))
}

// Does row i stand after another and not rise above it?
fn fall_row(b: &[u8], i: usize) -> bool
    requires { 9 + 5 * (i + 1) ≤ length b.now }
    ensures { result ≡ fall_row b.now i }
{
    0 < i && !is_rising(row_at(b, i - 1), row_at(b, i))
}

fn refuse_row<S: Copy>(fault: Fault, side: S, row: usize) -> RefusalOf<S>
    requires { row < 64 }
    ensures { result ≡ refusal fault (Some side) row }
{
    RefusalOf {
        fault,
        side: Some(side),
        row: row as u16,
    }
}

// Refusals 7 and 8: 7 is tried over the whole table first. The side is named as the caller names it, by a `Side` or by any number.
pub fn check_rows<S: Copy>(b: &[u8], side: S) -> Result<(), RefusalOf<S>>
    requires { (rows_in b.now ≤ 64) × (9 + 5 * rows_in b.now ≤ length b.now) }
    ensures { result ≡ verdict_of (row_checks b.now side) }
{
    let n = usize::from(b[8]);
    if let Some(bad) = (0..n).position(|i| bad_row(b, i)) {
        return Err(refuse_row(Fault::BadField, side, bad));
    }
    if let Some(fall) = (0..n).position(|i| fall_row(b, i)) {
        return Err(refuse_row(Fault::NotRising, side, fall));
    }
    Ok(())
}
