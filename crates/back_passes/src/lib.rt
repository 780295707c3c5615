// Rows of what each element of a line is worth, and the passes of the exact blur worked out backwards.
#![tactic(auto)]

pub mod back;
pub mod rows;
mod taps;
