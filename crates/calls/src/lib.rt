// What a reader believes of the calls, in specs/: what each takes, returns, refuses and leaves; walks and points of a run; packed numbers.
// proofs/ has what follows from it. This crate has the types that the definitions and the code share.
#![tactic(auto)]

ghost use Rattle.calls.specs.Call.{Call, call_of};

use format::Verdict;
use std::marker::Model;

// What each call but begin takes first: two tables in bytes, the bound, and the number of the rule.
#[derive(Drop)]
pub struct Call<'a> {
    pub writer: &'a [u8],
    pub reader: &'a [u8],
    pub bound: u64,
    pub rule: u64,
}

impl<'a> Model for Call<'a> {
    ghost Value = { Call };

    ghost view = { λ c. call_of c.writer.now c.reader.now c.bound c.rule };
}

// The verdict is a field and not a `Result`: document 01 says what stands beside a refusal, set 0, count 0 and lowest 64.
#[derive(Clone, Copy)]
pub struct Asked {
    pub verdict: Verdict,
    pub set: u64,
    pub count: u32,
    pub lowest: u32,
}

// The reason of a move by its number; beside a refusal stands 0 (`unexplained`), so the verdict is a field.
#[derive(Clone, Copy)]
pub struct Explained {
    pub verdict: Verdict,
    pub reason: u8,
}

// Beside a refusal stand kept 0 and rounds 0, and after 11 the rounds that were made (document 01): the verdict is a field.
#[derive(Clone, Copy)]
pub struct Built {
    pub verdict: Verdict,
    pub kept: u64,
    pub rounds: u64,
}

// The two states, the level, and the held items, front first; places from the level to 15 are zero: document 01 gives a run 16 places.
#[derive(Clone, Copy)]
pub struct Run {
    pub writer: u64,
    pub reader: u64,
    pub level: u64,
    pub items: [u32; 16],
}

// What one cycle brings: the letters that the bridge drives, the answers that it sees, and the item that waits at the writing side.
#[derive(Clone, Copy)]
pub struct Cycle {
    pub writer_letter: u64,
    pub reader_letter: u64,
    pub writer_answer: u64,
    pub reader_answer: u64,
    pub incoming: u32,
}

// "All zero in the run beside the refusal's number, side and row" (document 01): the verdict is a field.
#[derive(Clone, Copy)]
pub struct Begun {
    pub verdict: Verdict,
    pub run: Run,
}

// The mark counts the items returned. "A refused step returns the run given, item 0, mark 0" (document 01): the verdict is a field.
#[derive(Clone, Copy)]
pub struct Stepped {
    pub verdict: Verdict,
    pub run: Run,
    pub item: u32,
    pub mark: u32,
}

// A crate has at least one function.
fn nothing() {}
