// The parts of a stored vector: where its lists lie, and what a call answers.
#![tactic(auto)]

pub mod parts;
pub mod replies;
