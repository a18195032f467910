// Text and numbers on a writer, for the programs that run the calls on worked and damaged inputs. No contract can say what reaches standard
// output: these are proved to be safe and to end, and what a program prints is compared with its file stdout.
#![tactic(auto)]

use format::Verdict;
use std::fmt::Display;
use std::io;
use std::io::Write;

pub fn text<W: Write>(out: &mut W, t: &[u8]) -> io::Result<()> {
    out.write_all(t)
}

// The text with the numbers, in decimal, in place of its `%`.
pub fn line<W: Write>(out: &mut W, t: &[u8], numbers: &[u64]) -> io::Result<()> {
    let mut rest = numbers.iter();
    for &b in t {
        if b == b'%'
            && let Some(n) = rest.next()
        {
            write!(out, "{n}")?;
        } else {
            text(out, &[b])?;
        }
    }
    Ok(())
}

// Each with a space in front.
pub fn items<W: Write, T: Display>(out: &mut W, all: &[T]) -> io::Result<()> {
    for n in all {
        write!(out, " {n}")?;
    }
    Ok(())
}

// What was called, and its verdict: a word of the caller's where it is fine.
pub fn verdict<W: Write>(out: &mut W, name: &[u8], fine: &[u8], v: Verdict) -> io::Result<()> {
    text(out, name)?;
    let Err(refusal) = v else {
        return text(out, fine);
    };
    let numbers = [
        u64::from(refusal.fault.number()),
        u64::from(refusal.side_number()),
        u64::from(refusal.row),
    ];
    line(out, b": refused % side % row %,", &numbers)
}
