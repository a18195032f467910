// Pieces of a line into a lent buffer: each put stores a piece from a place on, and answers the place behind it. The
// buffer is a slice here: lending an array as a slice is what tells its length. It is no `String`: nothing below the programs has a heap, and
// `Written` promises the bytes behind the line too (the edits `one_byte_too_many` and `byte_past_the_text`).
#![tactic(auto)]

ghost use Rattle.std.specs.Prelude.{◌+◌, ◌≤◌, ◌<◌, ◌≡◌, [], ◌∷◌, ◌++◌, length};
ghost use Rattle.texts.specs.Text.{decimal, line_end};
ghost use Rattle.put.specs.Piece.{Put};

// The byte of a digit.
pub fn digit(d: u64) -> u8
    requires { d < 10 }
    ensures { result ≡ 48 + d }
{
    b'0' + d as u8
}

fn put_digit(out: &mut [u8], at: usize, d: u64) -> usize
    requires { (at < length out.old) × (d < 10) }
    ensures { Put ((48 + d) ∷ []) at out.old result out.new }
{
    out[at] = digit(d);
    at + 1
}

pub fn put(out: &mut [u8], at: usize, piece: &[u8]) -> usize
    requires { at + length piece.now ≤ length out.old }
    ensures { Put piece.now at out.old result out.new }
{
    let end = at + piece.len();
    out[at..end].copy_from_slice(piece);
    end
}

// The digits of n / 10, and then the last: at most 20 calls deep.
fn put_number(out: &mut [u8], at: usize, n: u64) -> usize
    requires { at + length (decimal n) ≤ length out.old }
    ensures { Put (decimal n) at out.old result out.new }
{
    if n < 10 {
        return put_digit(out, at, n);
    }
    let last = put_number(out, at, n / 10);
    put_digit(out, last, n % 10)
}

// A word and a number behind it; no u64 has more than 20 digits.
pub fn put_field(out: &mut [u8], at: usize, word: &[u8], n: u64) -> usize
    requires { at + length word.now + 20 ≤ length out.old }
    ensures put { Put (word.now ++ decimal n) at out.old result out.new }
    ensures upper_bound { result ≤ at + length word.now + 20 }
{
    let number = put(out, at, word);
    put_number(out, number, n)
}

pub fn end_line(out: &mut [u8], at: usize) -> usize
    requires { at < length out.old }
    ensures { Put line_end at out.old result out.new }
{
    put(out, at, b"\n")
}
