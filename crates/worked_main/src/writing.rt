// Lines of the listing, and how inputs of several lengths are cut.
ghost use Rattle.std.specs.Prelude.{ℕ, ◌≤◌};
ghost use Rattle.std.specs.Fn.{FnOnceReturnsAtMut};

use std::io;
use std::io::Write;

// Pair A's two tables, bound 1 and rule 0, as an input of the listing program.
const PAIR_A: [u8; 50] = [
    1, 0, 21, 1, 2, 0, 1, 2, 3, 0, 0, 0, 0, 0, 0, 1, 1, 1, 1, 1, 0, 0, 0, 1, 1, 0, 21, 2, 2, 0, 1,
    2, 3, 0, 0, 0, 0, 0, 0, 1, 1, 1, 1, 1, 0, 0, 0, 1, 1, 0,
];

// A line of the listing, which `write` puts at the start of a buffer; it gives the line's length.
fn line<W: Write, F: FnOnce(&mut [u8; 512]) -> usize>(out: &mut W, write: F) -> io::Result<()>
    requires callable { F.IsAlwaysCallable write }
    requires inside { (old : _) (n : ℕ) (new : _) → FnOnceReturnsAtMut F.FnOnce write old n new → n ≤ 512 }
{
    let mut buffer = [0u8; 512];
    let n = write(&mut buffer);
    show::text(out, &buffer[..n])
}

fn cut<W: Write>(out: &mut W, input: &[u8]) -> io::Result<()> {
    let c = lines::cut_input(input);
    let numbers = [
        input.len() as u64,
        c.writer as u64,
        c.reader as u64,
        c.bound,
        c.rule,
    ];
    show::line(
        out,
        b"bytes %: writer below %, reader below %, bound %, rule %\n",
        &numbers,
    )
}

fn listed<W: Write>(out: &mut W) -> io::Result<()> {
    line(out, |b| lines::first_line(b, 3, 8, 2, 1, 0))?;
    line(
        out,
        |b| lines::first_line(b, u64::MAX, u64::MAX, u64::MAX, u64::MAX, u64::MAX),
    )?;
    line(out, |b| lines::conf_line(b, 0, 0, 0, 257))?;
    line(out, |b| lines::conf_line(b, 1, 0, 1, 3))?;
    line(out, |b| lines::conf_line(b, 1, 1, 0, 1))?;
    line(out, |b| lines::conf_line(b, 1, 0, 0, 0))?;
    line(out, |b| lines::conf_line(b, 15, 9, 10, u64::MAX))?;
    line(
        out,
        |b| lines::conf_line(b, u64::MAX, u64::MAX, u64::MAX, 1 << 63),
    )?;
    line(out, |b| lines::refusal_line(b, 11, 0, 0))?;
    line(out, |b| lines::refusal_line(b, 7, 2, 63))
}

fn cuts<W: Write>(out: &mut W) -> io::Result<()> {
    cut(out, b"")?;
    let pair = PAIR_A;
    cut(out, &pair[..1])?;
    cut(out, &pair[..2])?;
    cut(out, &pair[..3])?;
    cut(out, &pair[..23])?;
    cut(out, &pair[..24])?;
    cut(out, &pair[..25])?;
    cut(out, &pair[..26])?;
    cut(out, &pair[..47])?;
    cut(out, &pair[..48])?;
    cut(out, &pair[..49])?;
    cut(out, &pair)?;
    cut(out, b"\0\0\0")?;
    cut(out, b"\0\0\0\x07")?;
    cut(out, b"\0\0\0\0\0\0\x07\0later")?;
    cut(out, b"\x02\xff\xffabc")?;
    let long = [1u8; 1024];
    cut(out, &long)
}

pub fn run<W: Write>(out: &mut W) -> io::Result<()> {
    show::text(out, b"---- lines\n")?;
    listed(out)?;
    cuts(out)
}
