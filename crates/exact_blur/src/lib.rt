// The exact blur and how near the blur is to it: definitions and laws, no code.
#![tactic(auto)]
