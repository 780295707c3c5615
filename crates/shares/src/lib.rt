// Which points made a pixel: the share of one input in an output.
#![tactic(auto)]

pub mod single;
