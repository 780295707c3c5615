// Area sums: a table of 32-bit numbers beside a picture, and its numbers at a corner.
#![tactic(auto)]

pub mod builder;
pub mod table;
