// The functions that are lent words: the words of a vector, filled and compared with it, and the calls.
#![tactic(auto)]

pub mod words;
