// Buffers filled with the numbers of a stored vector and compared with them, what a call leaves of them, and numbers below a bound.
#![tactic(auto)]

pub mod bounds;
pub mod buffers;
pub mod left;
