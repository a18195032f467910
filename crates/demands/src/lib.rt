// The customer's demands over the calls' own contracts, and the worked cases, in specs/ and proofs/. This crate has no code that a caller needs.
#![tactic(auto)]

// A crate has at least one function.
fn nothing() {}
