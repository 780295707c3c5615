// What holds of every call of the functions for C: laws, no code.
#![tactic(auto)]
