// Rebuilding the old picture from a mended one and the list of its changes.
#![tactic(auto)]

pub mod rebuilder;
