// A pair as the numbers that inner loops work with: the frame with its places, and the columns of a table.
#![tactic(auto)]

pub mod columns;
pub mod places;
