// Shares as C and C++ link them: each function is one call of its entry; include/corbelrush.h declares them.
#![tactic(auto)]

pub mod explains;
