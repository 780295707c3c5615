// Channels of the testers' image files: inward into a picture, and outward from one.
#![tactic(auto)]

mod blocks;
pub mod bodies;
mod ways;
mod words;
