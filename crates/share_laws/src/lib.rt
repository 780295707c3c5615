// Which points made a pixel: what the share of an input in an output is, and its laws. No code.
#![tactic(auto)]
