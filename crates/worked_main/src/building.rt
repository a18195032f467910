// The builder on cases 1 to 7 of document 01, on pairs A and C under flow-through, and on its refusals, into a buffer that is longer than N: its
// tail has to stand.
use calls::Call;
use std::io;
use std::io::Write;
use worked::{A_READER, A_WRITER, C_READER, C_WRITER, FLOW_THROUGH, REGISTERED};

// One state a side, no rows.
const BARE_WRITER: [u8; 9] = [1, 0, 6, 1, 1, 0, 0, 1, 0];

const BARE_READER: [u8; 9] = [1, 0, 6, 2, 1, 0, 0, 1, 0];

// Two ways from the start to the finish, by letter 0 or letter 1, and a reader that waits: all four configurations are kept. A builder that
// keeps a single path loses one.
const WAYS_WRITER: [u8; 29] = [
    1, 0, 26, 1, 4, 0, 3, 2, 4, 0, 0, 0, 0, 1, 0, 1, 0, 0, 2, 1, 0, 0, 0, 3, 2, 0, 0, 0, 3,
];

const WAYS_READER: [u8; 14] = [1, 0, 11, 2, 1, 0, 0, 1, 1, 0, 0, 0, 0, 0];

fn of<W: Write>(
    out: &mut W,
    name: &[u8],
    writer: &[u8],
    reader: &[u8],
    bound: u64,
    rule: u64,
) -> io::Result<()> {
    let mut buffer = [7u8; 20];
    let call = Call {
        writer,
        reader,
        bound,
        rule,
    };
    let b = build::build(&call, &mut buffer);
    show::verdict(out, name, b": accepted,", b.verdict)?;
    let numbers = [b.kept, b.rounds];
    show::line(out, b" kept % rounds %, bytes", &numbers)?;
    show::items(out, &buffer)?;
    show::text(out, b"\n")
}

fn of_a<W: Write>(out: &mut W, writer: &[u8], reader: &[u8]) -> io::Result<()> {
    of(out, b"case 1, A at 0", writer, reader, 0, REGISTERED)?;
    of(out, b"case 2, A at 1", writer, reader, 1, REGISTERED)?;
    of(out, b"case 3, A at 2", writer, reader, 2, REGISTERED)
}

fn of_c<W: Write>(out: &mut W, writer: &[u8], reader: &[u8]) -> io::Result<()> {
    of(out, b"case 4, C at 1", writer, reader, 1, REGISTERED)?;
    of(out, b"case 5, C at 2", writer, reader, 2, REGISTERED)
}

fn of_bare<W: Write>(out: &mut W, writer: &[u8], reader: &[u8]) -> io::Result<()> {
    of(out, b"case 6, bare at 0", writer, reader, 0, REGISTERED)?;
    of(out, b"case 7, bare at 15", writer, reader, 15, REGISTERED)
}

// Request a: "Pair C at bound 1 then keeps all 6, rounds 1".
fn through<W: Write>(out: &mut W) -> io::Result<()> {
    of(
        out,
        b"A at 0, flow-through",
        &A_WRITER,
        &A_READER,
        0,
        FLOW_THROUGH,
    )?;
    of(
        out,
        b"C at 1, flow-through",
        &C_WRITER,
        &C_READER,
        1,
        FLOW_THROUGH,
    )
}

fn refusals<W: Write>(out: &mut W, writer: &[u8], reader: &[u8]) -> io::Result<()> {
    of(out, b"the reader as writer", reader, writer, 1, REGISTERED)?;
    of(out, b"the writer twice", writer, writer, 1, REGISTERED)?;
    of(out, b"bound 16", writer, reader, 16, REGISTERED)?;
    of(out, b"bound 257", writer, reader, 257, REGISTERED)?;
    of(out, b"bound 16, rule 2", writer, reader, 16, 2)?;
    of(out, b"rule 2, 20 bytes for 24", writer, reader, 5, 2)?;
    of(out, b"rule 256", writer, reader, 1, 256)?;
    of(out, b"20 bytes for 24", writer, reader, 5, REGISTERED)
}

pub fn run<W: Write>(out: &mut W) -> io::Result<()> {
    show::text(out, b"---- build\n")?;
    of_a(out, &A_WRITER, &A_READER)?;
    of_c(out, &C_WRITER, &C_READER)?;
    of_bare(out, &BARE_WRITER, &BARE_READER)?;
    of(
        out,
        b"two ways at 0",
        &WAYS_WRITER,
        &WAYS_READER,
        0,
        REGISTERED,
    )?;
    through(out)?;
    refusals(out, &A_WRITER, &A_READER)
}
