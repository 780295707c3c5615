// What the share of one input and the list of all have in common: the checks, and the shares along one axis.
#![tactic(auto)]

pub mod axes;
pub mod checks;
