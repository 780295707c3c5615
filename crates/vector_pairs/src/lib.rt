// A list of pairs of words of a stored vector.
#![tactic(auto)]

pub mod lists;
