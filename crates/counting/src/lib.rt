// How many pixels of a picture fail the check, and whether none does; and pixels in one word each.
#![tactic(auto)]

pub mod counter;
pub mod none;
pub mod words;
