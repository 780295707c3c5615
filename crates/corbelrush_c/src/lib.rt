// The library for C and C++: each function of include/corbelrush.h under its own name, with the contract of the function of the face that it calls.
// Each contract stands here a second time, since the C interface needs it: a static library exports the functions of its own crate
// alone, and what an exported function promises is its own clause.
#![tactic(auto)]

pub mod areas;
pub mod explains;
pub mod filters;
pub mod grades;
pub mod images;
pub mod mends;
pub mod plane_filters;
pub mod plates;
pub mod recipe_lists;
pub mod wholes;
