// The testers' image files, Netpbm PAM: read into a picture, and written from one.
#![tactic(auto)]

pub mod reading;
pub mod writing;
