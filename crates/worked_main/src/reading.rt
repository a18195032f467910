// Tables at the limits of the format, and one damaged table for each refusal 1 to 8.
ghost use Rattle.std.specs.Prelude.{◌+◌, ◌*◌, ◌≤◌, ◌<◌, length};

use format::{Side, Table};
use std::io;
use std::io::Write;
use worked::A_WRITER;

// One state, one letter, no rows.
const SHORTEST: [u8; 9] = [1, 0, 6, 1, 1, 0, 0, 1, 0];

const EIGHT_BYTES: [u8; 8] = [1, 0, 5, 1, 1, 0, 0, 1];

// Row 1 moves two items; the rows do not rise either, and 7 is tried first.
const TWO_ITEMS: [u8; 24] = [
    1, 0, 21, 1, 2, 0, 1, 2, 3, 1, 0, 0, 0, 0, 0, 1, 1, 2, 1, 0, 0, 0, 0, 1,
];

// Rows 1 and 2 are equal in state, drive and answer.
const EQUAL_ROWS: [u8; 24] = [
    1, 0, 21, 1, 2, 0, 1, 2, 3, 0, 0, 0, 0, 0, 0, 1, 1, 1, 1, 0, 1, 1, 0, 1,
];

// The header and the last row of the table in hand: of a refused one, zeros.
fn show_table<W: Write>(out: &mut W, t: Table) -> io::Result<()> {
    let last = t.rows[63];
    let numbers = [
        t.version,
        t.role,
        t.states,
        t.start,
        t.finish,
        t.letters,
        t.count,
        last.state,
        last.drive,
        last.answer,
        last.item,
        last.next,
    ]
    .map(u64::from);
    show::line(
        out,
        b" version % role % states % start % finish % letters % rows % row 63: state % drive % answer % item % next %\n",
        &numbers,
    )
}

fn of<W: Write>(out: &mut W, name: &[u8], bytes: &[u8], side: Side) -> io::Result<()> {
    let r = tables::read(bytes, side);
    show::verdict(out, name, b": fine,", r.verdict)?;
    show_table(out, r.table)
}

// Row i, for state i / 8 and letter i % 8.
fn put_row(b: &mut [u8], i: u8)
    requires { 14 + 5 * i ≤ length b.old }
{
    let at = 9 + 5 * usize::from(i);
    b[at..at + 5].copy_from_slice(&[i / 8, i % 8, 15, 1, 15]);
}

// A table of n rows in N bytes, with its true length: 16 states, 8 letters.
fn dense<const N: usize>(n: u8) -> [u8; N]
    requires { 9 + 5 * n ≤ N }
{
    let mut b = [0; N];
    let [high, low] = (6 + 5 * u16::from(n)).to_be_bytes();
    b[0] = 1;
    b[1] = high;
    b[2] = low;
    b[3] = 2;
    b[4] = 16;
    b[6] = 15;
    b[7] = 8;
    b[8] = n;
    for i in 0..n {
        put_row(&mut b, i);
    }
    b
}

fn limits<W: Write>(out: &mut W) -> io::Result<()> {
    of(out, b"9 bytes", &SHORTEST, Side::Writer)?;
    of(out, b"pair A", &A_WRITER, Side::Writer)?;
    of(out, b"329 bytes, 64 rows", &dense::<329>(64), Side::Reader)?;
    of(out, b"334 bytes, 65 rows", &dense::<334>(65), Side::Reader)
}

// The shortest table with one byte changed.
fn changed<W: Write>(out: &mut W, name: &[u8], at: usize, value: u8) -> io::Result<()>
    requires { at < 9 }
{
    let mut t = SHORTEST;
    t[at] = value;
    of(out, name, &t, Side::Writer)
}

fn damaged<W: Write>(out: &mut W) -> io::Result<()> {
    of(out, b"no bytes", b"", Side::Reader)?;
    of(out, b"8 bytes", &EIGHT_BYTES, Side::Writer)?;
    changed(out, b"version 2", 0, 2)?;
    changed(out, b"length untrue", 2, 7)?;
    changed(out, b"length of other rows", 8, 1)?;
    of(out, b"role of the writer", &A_WRITER, Side::Reader)?;
    changed(out, b"no states", 4, 0)?;
    changed(out, b"9 letters", 7, 9)?;
    changed(out, b"finish outside", 6, 1)?;
    of(out, b"two items", &TWO_ITEMS, Side::Writer)?;
    of(out, b"equal rows", &EQUAL_ROWS, Side::Writer)
}

pub fn run<W: Write>(out: &mut W) -> io::Result<()> {
    show::text(out, b"---- read\n")?;
    limits(out)?;
    damaged(out)
}
