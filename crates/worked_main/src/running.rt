// Begin and step on case 10 of document 01, on a run of pair C that holds two items, on runs of pair C in which an item passes through, and on each
// refusal.
ghost use Rattle.std.specs.Prelude.{◌<◌};

use crate::bridge::{A, Bridge, C};
use calls::{Begun, Cycle, Run, Stepped};
use std::io;
use std::io::Write;
use worked::{A_KEPT, A_READER, A_WRITER, FLOW_THROUGH, REGISTERED};

const TWO: [u8; 8] = [1, 0, 0, 0, 0, 1, 1, 2];

fn show_run<W: Write>(out: &mut W, u: Run) -> io::Result<()> {
    let conf = [u.writer, u.reader, u.level];
    show::line(out, b" run % % % items", &conf)?;
    let items = u.items;
    show::items(out, &items)?;
    show::text(out, b"\n")
}

fn show_begun<W: Write>(out: &mut W, name: &[u8], b: Begun) -> io::Result<()> {
    show::verdict(out, name, b": done,", b.verdict)?;
    show_run(out, b.run)
}

fn show_stepped<W: Write>(out: &mut W, name: &[u8], s: Stepped) -> io::Result<()> {
    show::verdict(out, name, b": done,", s.verdict)?;
    let numbers = [u64::from(s.item), u64::from(s.mark)];
    show::line(out, b" item % mark %,", &numbers)?;
    show_run(out, s.run)
}

fn cycle(x: u64, y: u64, a: u64, b: u64, incoming: u32) -> Cycle {
    Cycle {
        writer_letter: x,
        reader_letter: y,
        writer_answer: a,
        reader_answer: b,
        incoming,
    }
}

// A run with one place that is not zero.
fn held(writer: u64, reader: u64, level: u64, place: usize, item: u32) -> Run
    requires { place < 16 }
{
    let mut items = [0u32; 16];
    items[place] = item;
    Run {
        writer,
        reader,
        level,
        items,
    }
}

// Begin over the bridge, shown; gives the run that it begins.
fn begin<W: Write>(out: &mut W, name: &[u8], b: Bridge) -> io::Result<Run> {
    let begun = runs::begin(b.writer, b.reader, b.bound);
    show_begun(out, name, begun)?;
    Ok(begun.run)
}

// A step over the bridge, shown; gives the run after it.
fn step<W: Write>(out: &mut W, name: &[u8], b: Bridge, u: Run, c: Cycle) -> io::Result<Run> {
    let s = runs::step(&b.call(), b.kept, u, c);
    show_stepped(out, name, s)?;
    Ok(s.run)
}

fn case_10<W: Write>(out: &mut W) -> io::Result<()> {
    let u = begin(out, b"case 10, begin", A)?;
    let v = step(out, b"case 10, move 1.0", A, u, cycle(1, 0, 1, 0, 7))?;
    step(out, b"case 10, move 0.1", A, v, cycle(0, 1, 0, 1, 8))?;
    Ok(())
}

fn of_two_items<W: Write>(out: &mut W) -> io::Result<()> {
    let u = begin(out, b"C, begin", C)?;
    let one = step(out, b"C, burst", C, u, cycle(1, 0, 2, 0, 7))?;
    step(out, b"C, one in and one out", C, one, cycle(0, 1, 3, 1, 8))?;
    let two = step(out, b"C, second of the burst", C, one, cycle(0, 0, 3, 0, 8))?;
    let three = step(out, b"C, first out", C, two, cycle(0, 1, 0, 1, 9))?;
    step(out, b"C, second out", C, three, cycle(0, 1, 0, 1, 9))?;
    let zero = step(out, b"C, an item of 0 in", C, u, cycle(1, 0, 1, 0, 0))?;
    step(out, b"C, an item of 0 out", C, zero, cycle(0, 1, 0, 1, 9))?;
    Ok(())
}

// Pair C at bound 1 under flow-through, where all 6 are kept.
fn of_passing_items<W: Write>(out: &mut W) -> io::Result<()> {
    let b = C.with_bound(1).with_rule(FLOW_THROUGH).with_kept(&[1; 6]);
    let u = runs::begin(b.writer, b.reader, b.bound).run;
    step(out, b"C at level 0, in and out", b, u, cycle(1, 1, 1, 1, 7))?;
    let one = step(out, b"C, burst", b, u, cycle(1, 0, 2, 0, 5))?;
    let two = step(
        out,
        b"C full, one in and one out",
        b,
        one,
        cycle(0, 1, 3, 1, 9),
    )?;
    step(out, b"C, second out", b, two, cycle(0, 1, 0, 1, 1))?;
    step(
        out,
        b"15, C full, no item leaves",
        b,
        one,
        cycle(0, 0, 3, 0, 9),
    )?;
    step(
        out,
        b"15, C empty, no item comes",
        b,
        u,
        cycle(0, 1, 0, 1, 9),
    )?;
    Ok(())
}

// Begin and a step.
fn both<W: Write>(out: &mut W, name: &[u8], b: Bridge, u: Run, c: Cycle) -> io::Result<()> {
    begin(out, name, b)?;
    step(out, name, b, u, c)?;
    Ok(())
}

// Begin, and the first step of case 10.
fn with<W: Write>(out: &mut W, name: &[u8], b: Bridge) -> io::Result<()> {
    both(out, name, b, held(0, 0, 0, 0, 0), cycle(1, 0, 1, 0, 7))
}

// The writer's table of pair A with one byte changed, and a step of a run that makes no sense.
fn changed<W: Write>(out: &mut W, name: &[u8], at: usize, value: u8) -> io::Result<()>
    requires { at < 24 }
{
    let mut t = A_WRITER;
    t[at] = value;
    let b = A.with_tables(&t, &A_READER).with_rule(2);
    let u = held(300, 5, 77, 9, 4294967295);
    both(out, name, b, u, cycle(9, 9, 99, 99, 1))
}

// Tables that are refused: their refusal comes before that of the bound, and of the rule.
fn with_tables<'a, W: Write>(
    out: &mut W,
    name: &[u8],
    writer: &'a [u8],
    reader: &'a [u8],
) -> io::Result<()> {
    with(
        out,
        name,
        A.with_tables(writer, reader).with_bound(99).with_rule(99),
    )
}

// Pair A: the bound is refused before the rule, and both before the bytes are looked at.
fn with_bytes<W: Write>(
    out: &mut W,
    name: &[u8],
    bound: u64,
    rule: u64,
    kept: &[u8],
) -> io::Result<()> {
    with(
        out,
        name,
        A.with_bound(bound).with_rule(rule).with_kept(kept),
    )
}

fn refusals_of_tables<W: Write>(out: &mut W) -> io::Result<()> {
    with_tables(out, b"1, five bytes", b"short", b"short")?;
    with_tables(out, b"1, the reader's", &A_WRITER, b"short")?;
    changed(out, b"2, version 2", 0, 2)?;
    changed(out, b"3, length 20", 2, 20)?;
    changed(out, b"4, role 2", 3, 2)?;
    changed(out, b"5, 17 states", 4, 17)?;
    changed(out, b"6, start 2", 5, 2)?;
    changed(out, b"7, item 2", 12, 2)?;
    changed(out, b"8, row 2 falls", 19, 0)
}

fn refusals_of_bytes<W: Write>(out: &mut W) -> io::Result<()> {
    with_bytes(out, b"9, bound 16, rule 2", 16, 2, b"")?;
    with_bytes(out, b"9, bound 257", 257, REGISTERED, b"")?;
    with_bytes(out, b"17, rule 2", 1, 2, b"")?;
    with_bytes(out, b"17, rule 256", 1, 256, &A_KEPT)?;
    with_bytes(out, b"10, 8 bytes for 12", 2, REGISTERED, &A_KEPT)?;
    with_bytes(out, b"12, a byte of 2", 1, REGISTERED, &TWO)?;
    with_bytes(out, b"bytes past N not looked at", 0, REGISTERED, &TWO)
}

fn refusals_of_runs<W: Write>(out: &mut W) -> io::Result<()> {
    step(
        out,
        b"13, state 2",
        A,
        held(2, 0, 0, 0, 0),
        cycle(0, 0, 0, 0, 1),
    )?;
    step(
        out,
        b"13, state 256",
        A,
        held(0, 256, 0, 0, 0),
        cycle(0, 0, 0, 0, 1),
    )?;
    step(
        out,
        b"13, level 2",
        A,
        held(0, 0, 2, 0, 7),
        cycle(0, 0, 0, 0, 1),
    )?;
    step(
        out,
        b"13, place 0 at level 0",
        A,
        held(0, 0, 0, 0, 7),
        cycle(0, 0, 0, 0, 1),
    )?;
    step(
        out,
        b"13, place 15",
        A,
        held(1, 0, 1, 15, 7),
        cycle(0, 0, 0, 0, 1),
    )?;
    Ok(())
}

fn refusals_of_cycles<W: Write>(out: &mut W) -> io::Result<()> {
    let u = held(1, 0, 1, 0, 7);
    step(out, b"14, both letters", A, u, cycle(2, 2, 99, 99, 1))?;
    step(out, b"14, the reader's", A, u, cycle(0, 256, 99, 99, 1))?;
    step(out, b"15, no writer row", A, u, cycle(1, 0, 99, 99, 1))?;
    step(
        out,
        b"15, not kept",
        A,
        held(0, 1, 0, 0, 0),
        cycle(0, 0, 0, 0, 1),
    )?;
    step(
        out,
        b"15, level 0",
        A,
        held(0, 0, 0, 0, 0),
        cycle(0, 1, 0, 1, 1),
    )?;
    step(out, b"16, both answers", A, u, cycle(0, 1, 5, 5, 1))?;
    step(out, b"16, the reader's", A, u, cycle(0, 1, 0, 16, 1))?;
    step(out, b"16, answer 256", A, u, cycle(0, 1, 256, 1, 1))?;
    Ok(())
}

pub fn run<W: Write>(out: &mut W) -> io::Result<()> {
    show::text(out, b"---- begin and step\n")?;
    case_10(out)?;
    of_two_items(out)?;
    of_passing_items(out)?;
    refusals_of_tables(out)?;
    refusals_of_bytes(out)?;
    refusals_of_runs(out)?;
    refusals_of_cycles(out)
}
