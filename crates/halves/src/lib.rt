// Blocks of pixels taken apart into the bytes of each channel, and put together again, by halves of a word.
#![tactic(auto)]

pub mod apart;
pub mod together;
