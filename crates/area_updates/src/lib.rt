// Area sums: one pixel's change carried into a table.
#![tactic(auto)]

pub mod updater;
