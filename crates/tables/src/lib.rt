// Reading and checking a protocol table: document 01, "A protocol table, in bytes", and refusals 1 to 8.
// `read` takes any bytes. The functions below it assume what the checks before them showed, and say so in their `requires`.
#![tactic(auto)]

ghost use Rattle.std.specs.Prelude.{◌≡◌, ◌+◌, ◌*◌, ◌≤◌, length};
ghost use Rattle.format.specs.Verdicts.{side_number, verdict_of};
ghost use Rattle.format.specs.Format.{rows_in, rows_of, table_of};
ghost use Rattle.format.specs.Reads.{length_wrong, range_wrong, header_checks, checks, refused_as, read_of};

use format::{Fault, Reading, Refusal, Row, Side, Table, Verdict};
use rows::{HEADER, ROW_SIZE, check_rows, row_at, zero_row};

const VERSION: u8 = 1;

// Refusal 5: are states, letters or rows outside their ranges?
fn range_wrong(b: &[u8]) -> bool
    requires { 9 ≤ length b.now }
    ensures { result ≡ range_wrong b.now }
{
    let n = b[4];
    let d = b[7];
    let rows = b[8];
    if n < 1 {
        return true;
    }
    if 16 < n {
        return true;
    }
    if d < 1 {
        return true;
    }
    if 8 < d {
        return true;
    }
    if 64 < rows {
        return true;
    }
    false
}

// Refusal 3: is the length field untrue, or not that of so many rows? It is compared as a number: nothing is cut to 16 bits.
fn length_wrong(b: &[u8]) -> bool
    requires { 9 ≤ length b.now }
    ensures { result ≡ length_wrong b.now }
{
    let field = 256 * usize::from(b[1]) + usize::from(b[2]);
    if field != b.len() - 3 {
        return true;
    }
    if field != 6 + ROW_SIZE * usize::from(b[8]) {
        return true;
    }
    false
}

// Refusals 1 to 6.
fn check_header(b: &[u8], side: Side) -> Verdict
    ensures { result ≡ verdict_of (header_checks b.now (side_number side) side) }
{
    if b.len() < HEADER {
        return Err(Refusal::of(Fault::Short, side));
    }
    if b[0] != VERSION {
        return Err(Refusal::of(Fault::UnknownVersion, side));
    }
    if length_wrong(b) {
        return Err(Refusal::of(Fault::UntrueLength, side));
    }
    if b[3] != side.number() {
        return Err(Refusal::of(Fault::WrongRole, side));
    }
    if range_wrong(b) {
        return Err(Refusal::of(Fault::OutOfRange, side));
    }
    let n = b[4];
    if n <= b[5] {
        return Err(Refusal::of(Fault::NoSuchEnd, side));
    }
    if n <= b[6] {
        return Err(Refusal::of(Fault::NoSuchEnd, side));
    }
    Ok(())
}

fn check(b: &[u8], side: Side) -> Verdict
    ensures { result ≡ verdict_of (checks b.now side) }
{
    check_header(b, side)?;
    check_rows(b, side)
}

// The rows of the bytes, and zeros after them.
fn fill(b: &[u8], n: usize) -> [Row; 64]
    requires { (n ≡ rows_in b.now) × (n ≤ 64) × (9 + 5 * n ≤ length b.now) }
    ensures { result ≡ rows_of b.now }
{
    let mut rows = [zero_row(); 64];
    for i in 0..n {
        rows[i] = row_at(b, i);
    }
    rows
}

// A refused reading: every field of its table is zero.
fn refused(refusal: Refusal) -> Reading
    ensures { result ≡ refused_as refusal }
{
    let table = Table {
        version: 0,
        role: 0,
        states: 0,
        start: 0,
        finish: 0,
        letters: 0,
        count: 0,
        rows: [zero_row(); 64],
    };
    Reading {
        table,
        verdict: Err(refusal),
    }
}

fn taken(b: &[u8]) -> Table
    requires { (rows_in b.now ≤ 64) × (9 + 5 * rows_in b.now ≤ length b.now) }
    ensures { result ≡ table_of b.now }
{
    let rows = fill(b, usize::from(b[8]));
    Table {
        version: b[0],
        role: b[3],
        states: b[4],
        start: b[5],
        finish: b[6],
        letters: b[7],
        count: b[8],
        rows,
    }
}

// Reads and checks the table of a side. A refusal returns early: where a `match` gives the reading, it is copied once more.
pub fn read(bytes: &[u8], side: Side) -> Reading
    ensures { result ≡ read_of bytes.now side }
{
    if let Err(refusal) = check(bytes, side) {
        return refused(refusal);
    }
    Reading {
        table: taken(bytes),
        verdict: Ok(()),
    }
}
