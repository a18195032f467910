// The lines of the listing, each into a lent buffer, and the cut of the program's input. Numbers in, bytes out: nothing
// here knows of tables, sets of configurations or the builder.
#![tactic(auto)]

ghost use Rattle.std.specs.Prelude.{◌+◌, ◌≤◌, ◌<◌, ◌≡◌, length, get_or};
ghost use Rattle.texts.specs.Text.{move_text, bit_text, moves_below, first_line, conf_line, refusal_line};
ghost use Rattle.texts.specs.Written.{Written};
ghost use Rattle.texts.specs.Cut.{table_bytes, cut_of};
ghost use Rattle.put.specs.Piece.{Put};

use put::{digit, end_line, put, put_field};
use texts::Cut;

// The move of bit m = 8x + y.
fn put_move(out: &mut [u8], at: usize, m: u64) -> usize
    requires { (at + 4 ≤ length out.old) × (m < 64) }
    ensures { Put (move_text m) at out.old result out.new }
{
    let x = digit(m / 8);
    let y = digit(m % 8);
    let piece = [b' ', x, b'.', y];
    put(out, at, &piece)
}

// The move of bit m, if the set has it.
fn put_bit(out: &mut [u8], at: usize, set: u64, m: u64) -> usize
    requires { (at + 4 ≤ length out.old) × (m < 64) }
    ensures { Put (bit_text set m) at out.old result out.new }
{
    if (set >> m) % 2 == 1 {
        return put_move(out, at, m);
    }
    at
}

fn put_moves(out: &mut [u8], at: usize, set: u64) -> usize
    requires { at + 256 ≤ length out.old }
    ensures put { Put (moves_below set 64) at out.old result out.new }
    ensures upper_bound { result ≤ at + 256 }
{
    let mut next = at;
    for m in 0..64 {
        next = put_bit(out, next, set, m);
    }
    next
}

// Each of the three lines is written at the start of the buffer, which has room for it at any numbers; the answer is its
// length.
pub fn first_line(
    out: &mut [u8; 512],
    kept: u64,
    of: u64,
    rounds: u64,
    bound: u64,
    rule: u64,
) -> usize
    ensures { Written (first_line kept of rounds bound rule) out.old result out.new }
{
    let second = put_field(out, 0, b"converter kept=", kept);
    let third = put_field(out, second, b" of=", of);
    let fourth = put_field(out, third, b" rounds=", rounds);
    let fifth = put_field(out, fourth, b" bound=", bound);
    let end = put_field(out, fifth, b" rule=", rule);
    end_line(out, end)
}

pub fn conf_line(
    out: &mut [u8; 512],
    writer_state: u64,
    reader_state: u64,
    level: u64,
    set: u64,
) -> usize
    ensures { Written (conf_line writer_state reader_state level set) out.old result out.new }
{
    let second = put_field(out, 0, b"", writer_state);
    let third = put_field(out, second, b" ", reader_state);
    let word = put_field(out, third, b" ", level);
    let moves = put(out, word, b" moves");
    let end = put_moves(out, moves, set);
    end_line(out, end)
}

pub fn refusal_line(out: &mut [u8; 512], number: u64, side: u64, row: u64) -> usize
    ensures { Written (refusal_line number side row) out.old result out.new }
{
    let second = put_field(out, 0, b"refused ", number);
    let third = put_field(out, second, b" side ", side);
    let end = put_field(out, third, b" row ", row);
    end_line(out, end)
}

// How many bytes the table gets that starts here.
fn table_bytes(bytes: &[u8]) -> usize
    ensures { result ≡ table_bytes bytes.now }
{
    let &[_, high, low, ..] = bytes else {
        return bytes.len();
    };
    let end = 3 + usize::from(u16::from_be_bytes([high, low]));
    end.min(bytes.len())
}

fn byte_or(bytes: &[u8], at: usize, missing: u64) -> u64
    ensures { result ≡ get_or bytes.now at missing }
{
    bytes.get(at).map_or(missing, |&byte| u64::from(byte))
}

// Cuts the program's input into writer table, reader table, bound and rule.
pub fn cut_input(input: &[u8]) -> Cut
    ensures { result ≡ cut_of input.now }
{
    let writer = table_bytes(input);
    let reader = writer + table_bytes(&input[writer..]);
    let rest = &input[reader..];
    let bound = byte_or(rest, 0, 0);
    let rule = byte_or(rest, 1, 1);
    Cut {
        writer,
        reader,
        bound,
        rule,
    }
}
