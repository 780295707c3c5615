// What graders ask of a picture: the premultiplied check and a sampling view.
#![tactic(auto)]

pub mod premultiplied;
pub mod sampling;
