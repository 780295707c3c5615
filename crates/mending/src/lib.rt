// Mending a picture, with a list of what was changed.
#![tactic(auto)]

pub mod mender;
