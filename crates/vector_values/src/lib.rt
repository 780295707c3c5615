// The numbers of a stored vector: as text, by their places, and what they stand for.
#![tactic(auto)]

pub mod head;
pub mod text;
pub mod values;
