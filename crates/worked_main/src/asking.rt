// Ask on cases 8 and 9 of document 01, on pair C under both rules, on bytes that no builder made, and on its refusals.
use crate::bridge::{A, Bridge, C};
use calls::Asked;
use rules::At;
use std::io;
use std::io::Write;
use worked::{A_READER, A_WRITER, FLOW_THROUGH};

// Every place of pair A at bound 1: a set that is not correct, lent all the same.
const ALL: [u8; 8] = [1, 1, 1, 1, 1, 1, 1, 1];

const TWO: [u8; 8] = [1, 0, 0, 0, 0, 1, 1, 2];

fn answer<W: Write>(out: &mut W, name: &[u8], a: Asked) -> io::Result<()> {
    show::verdict(out, name, b":", a.verdict)?;
    let numbers = [a.set, u64::from(a.count), u64::from(a.lowest)];
    show::line(out, b" set % count % lowest %\n", &numbers)
}

// Asks at a configuration.
fn at<W: Write>(
    out: &mut W,
    name: &[u8],
    b: Bridge,
    writer: u64,
    reader: u64,
    level: u64,
) -> io::Result<()> {
    let at = At {
        writer,
        reader,
        level,
    };
    answer(out, name, ask::ask(&b.call(), b.kept, at))
}

fn cases<W: Write>(out: &mut W) -> io::Result<()> {
    at(out, b"case 8, A at (0,0,0)", A, 0, 0, 0)?;
    at(out, b"case 8, A at (1,0,1)", A, 1, 0, 1)?;
    at(out, b"case 8, A at (1,1,0)", A, 1, 1, 0)?;
    at(out, b"case 9, C at (0,0,1)", C, 0, 0, 1)?;
    at(
        out,
        b"C at (0,0,1), bound 1, flow-through",
        C.with_bound(1).with_rule(FLOW_THROUGH),
        0,
        0,
        1,
    )?;
    at(
        out,
        b"C at (0,0,1), bound 1, registered",
        C.with_bound(1),
        0,
        0,
        1,
    )?;
    at(out, b"A at (0,1,0), not kept", A, 0, 1, 0)?;
    at(out, b"all kept, A at (0,0,1)", A.with_kept(&ALL), 0, 0, 1)?;
    at(out, b"all kept, A at (0,0,0)", A.with_kept(&ALL), 0, 0, 0)
}

// The writer's refusal comes before the reader's, and both before the bound's and the rule's.
fn refusals<W: Write>(out: &mut W) -> io::Result<()> {
    at(
        out,
        b"the reader as writer",
        A.with_tables(&A_READER, &A_WRITER).with_rule(2),
        0,
        0,
        0,
    )?;
    at(
        out,
        b"the writer twice",
        A.with_tables(&A_WRITER, &A_WRITER)
            .with_bound(16)
            .with_rule(2),
        0,
        0,
        0,
    )?;
    at(out, b"bound 16", A.with_bound(16), 0, 0, 0)?;
    at(out, b"bound 257", A.with_bound(257), 0, 0, 0)?;
    at(out, b"8 bytes for 12", A.with_bound(2), 2, 0, 0)?;
    at(out, b"a byte of 2, state 2", A.with_kept(&TWO), 2, 0, 0)?;
    at(out, b"state 2", A, 2, 0, 0)?;
    at(out, b"state 256", A, 0, 256, 0)?;
    at(out, b"level 2", A, 0, 0, 2)?;
    at(
        out,
        b"bound 16, rule 2",
        C.with_bound(16).with_rule(2),
        0,
        0,
        0,
    )?;
    at(
        out,
        b"rule 2, 9 bytes for 12",
        C.with_bound(3).with_rule(2),
        0,
        0,
        0,
    )?;
    at(out, b"rule 257", C.with_rule(257), 0, 0, 0)?;
    at(
        out,
        b"9 bytes for 6, byte 8 not looked at",
        C.with_bound(1),
        0,
        0,
        0,
    )
}

pub fn run<W: Write>(out: &mut W) -> io::Result<()> {
    show::text(out, b"---- ask\n")?;
    cases(out)?;
    refusals(out)
}
