// A plate's bytes as they are written, and what is read of them: definitions and laws, no code.
#![tactic(auto)]
