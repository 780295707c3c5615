// What holds of every list of recipes, from Rattle and from C: definitions and laws, no code.
#![tactic(auto)]
