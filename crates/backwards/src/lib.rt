// What each element of a line is worth to one output of the exact blur, worked out backwards through its passes.
#![tactic(auto)]

mod line;
mod side;

pub use line::axis_shares;
pub use side::{LevelSide, across, down};
