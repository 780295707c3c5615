// Premultiplied stays premultiplied: definitions and laws, no code.
#![tactic(auto)]
