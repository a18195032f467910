// A tool, in specs/ and proofs/: finite arenas of numbered places, their largest correct set and its rounds. This crate has no code that a caller needs.
#![tactic(auto)]

// A crate has at least one function.
fn nothing() {}
