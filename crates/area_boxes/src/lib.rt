// Area sums: a box answered from a table.
#![tactic(auto)]

pub mod boxes;
