// Why on pair A: a move for each reason, registered, and those that the rule decides under flow-through; a move with two faults; refusals.
use crate::bridge::{A, Bridge};
use calls::Explained;
use rules::At;
use std::io;
use std::io::Write;
use worked::FLOW_THROUGH;

const ALL: [u8; 8] = [1, 1, 1, 1, 1, 1, 1, 1];

const START: [u8; 8] = [1, 0, 0, 0, 0, 0, 0, 0];

const TWO: [u8; 8] = [1, 0, 0, 0, 0, 1, 1, 2];

fn told<W: Write>(out: &mut W, name: &[u8], e: Explained) -> io::Result<()> {
    show::verdict(out, name, b":", e.verdict)?;
    let numbers = [u64::from(e.reason)];
    show::line(out, b" reason %\n", &numbers)
}

// Why at a configuration, of the move x.y.
fn at<W: Write>(
    out: &mut W,
    name: &[u8],
    b: Bridge,
    writer: u64,
    reader: u64,
    level: u64,
    x: u64,
    y: u64,
) -> io::Result<()> {
    let at = At {
        writer,
        reader,
        level,
    };
    told(out, name, why::why(&b.call(), b.kept, at, x, y))
}

fn cases<W: Write>(out: &mut W) -> io::Result<()> {
    at(out, b"(0,0,0) 1.0", A, 0, 0, 0, 1, 0)?;
    at(out, b"(0,1,0) 0.0, not kept", A, 0, 1, 0, 0, 0)?;
    at(out, b"(1,0,1) 1.0, no writer row", A, 1, 0, 1, 1, 0)?;
    at(out, b"(1,1,0) 0.1, no reader row", A, 1, 1, 0, 0, 1)?;
    at(out, b"(1,1,0) 1.1, no row", A, 1, 1, 0, 1, 1)?;
    at(out, b"(0,0,0) 0.1, nothing held", A, 0, 0, 0, 0, 1)?;
    at(out, b"(0,0,1) 1.1, full", A.with_kept(&ALL), 0, 0, 1, 1, 1)?;
    at(
        out,
        b"(0,0,0) 1.0, lands outside",
        A.with_kept(&START),
        0,
        0,
        0,
        1,
        0,
    )?;
    at(
        out,
        b"(0,0,0) 1.1, two faults",
        A.with_bound(0).with_kept(&START),
        0,
        0,
        0,
        1,
        1,
    )
}

fn through<W: Write>(out: &mut W) -> io::Result<()> {
    at(
        out,
        b"(0,0,1) 1.1, through",
        A.with_rule(FLOW_THROUGH).with_kept(&ALL),
        0,
        0,
        1,
        1,
        1,
    )?;
    at(
        out,
        b"(0,0,1) 1.0, full",
        A.with_rule(FLOW_THROUGH).with_kept(&ALL),
        0,
        0,
        1,
        1,
        0,
    )?;
    at(
        out,
        b"(0,0,0) 0.1, nothing held",
        A.with_rule(FLOW_THROUGH).with_kept(&ALL),
        0,
        0,
        0,
        0,
        1,
    )?;
    at(
        out,
        b"(0,0,0) 1.1, lands outside",
        A.with_bound(0).with_rule(FLOW_THROUGH).with_kept(&START),
        0,
        0,
        0,
        1,
        1,
    )
}

fn refusals<W: Write>(out: &mut W) -> io::Result<()> {
    at(
        out,
        b"bound 16, rule 2",
        A.with_bound(16).with_rule(2),
        0,
        0,
        0,
        0,
        0,
    )?;
    at(
        out,
        b"rule 2, 8 bytes for 12",
        A.with_bound(2).with_rule(2),
        0,
        0,
        0,
        0,
        0,
    )?;
    at(
        out,
        b"8 bytes for 12, level 9",
        A.with_bound(2),
        0,
        0,
        9,
        0,
        0,
    )?;
    at(
        out,
        b"a byte of 2, state 2",
        A.with_kept(&TWO),
        2,
        0,
        0,
        0,
        0,
    )?;
    at(out, b"state 2, letter 2", A, 2, 0, 0, 2, 0)?;
    at(out, b"not kept, letters 2 and 2", A, 0, 1, 0, 2, 2)?;
    at(out, b"the reader's letter 256", A, 0, 0, 0, 0, 256)
}

pub fn run<W: Write>(out: &mut W) -> io::Result<()> {
    show::text(out, b"---- why\n")?;
    cases(out)?;
    through(out)?;
    refusals(out)
}
