// What a reader believes of the listing's text, in specs/: its lines as bytes, what a buffer holds once a line is written
// into it, and the cut of the program's input. proofs/ has what follows. This crate has no code that a caller needs.
#![tactic(auto)]

// The writer's table is the bytes below `writer`, the reader's those from `writer` to below `reader`.
#[derive(Clone, Copy)]
pub struct Cut {
    pub writer: usize,
    pub reader: usize,
    pub bound: u64,
    pub rule: u64,
}

// A crate has at least one function.
fn nothing() {}
