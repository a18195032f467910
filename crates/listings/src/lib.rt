// What a reader believes of the listing of a pair, in specs/: which text it has, from what build and ask answer.
// proofs/ has what follows from it. This crate has no code that a caller needs.
#![tactic(auto)]

// A crate has at least one function.
fn nothing() {}
