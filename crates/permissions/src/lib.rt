// A permission list in bytes, read in place: refusal 18, the set of moves that a place permits, and one move of it. Request c.
// `check_list` takes any bytes. The others assume that the bytes of the place are there, and say so in their `requires`.
#![tactic(auto)]

ghost use Rattle.std.specs.Prelude.{◌≡◌, ◌∷◌, [], ◌+◌, ◌*◌, ◌≤◌, ◌<◌, length};
ghost use Rattle.lists.specs.Masks.{has_bit};
ghost use Rattle.format.specs.Verdicts.{verdict_of};
ghost use Rattle.calls.specs.Lists.{set_at, list_wrong, list_check};

use format::{Fault, Refusal, Verdict};

const VERSION: u8 = 1;

// Version and count.
const HEADER: usize = 3;

// The bytes of a set.
const SET_SIZE: usize = 8;

// Are there fewer than three bytes, is the version unknown, or the count untrue or not that of n places?
fn is_wrong(list: &[u8], n: usize) -> bool
    requires { n ≤ 4096 }
    ensures { result ≡ list_wrong n list.now }
{
    if list.len() < HEADER {
        return true;
    }
    if list[0] != VERSION {
        return true;
    }
    let count = 256 * usize::from(list[1]) + usize::from(list[2]);
    if count + HEADER != list.len() {
        return true;
    }
    count != SET_SIZE * n
}

pub fn check_list(list: &[u8], n: usize) -> Verdict
    requires { n ≤ 4096 }
    ensures { result ≡ verdict_of (list_check n list.now ∷ []) }
{
    if is_wrong(list, n) {
        return Err(Refusal::from(Fault::UntrueList));
    }
    Ok(())
}

// The set of moves that the list permits at place p: bit 8x + y for the move x.y.
pub fn permitted(list: &[u8], p: usize) -> u64
    requires { (3 + 8 * (p + 1) ≤ length list.now) × (p ≤ 4096) }
    ensures { result ≡ set_at list.now p }
{
    let at = HEADER + SET_SIZE * p;
    let mut set = [0u8; SET_SIZE];
    set.copy_from_slice(&list[at..at + SET_SIZE]);
    u64::from_be_bytes(set)
}

// Is the move with bit m permitted at place p? The bits 0 to 7 stand in the last byte of the set.
pub fn permits(list: &[u8], p: usize, m: u8) -> bool
    requires { (3 + 8 * (p + 1) ≤ length list.now) × (p ≤ 4096) × (m < 64) }
    ensures { result ≡ has_bit (set_at list.now p) m }
{
    let at = HEADER + SET_SIZE * p + 7 - usize::from(m / 8);
    (list[at] >> (m % 8)) % 2 == 1
}
