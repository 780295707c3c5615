// Which points made a pixel: the list of all inputs that have a share in an output.
#![tactic(auto)]

pub mod listing;
