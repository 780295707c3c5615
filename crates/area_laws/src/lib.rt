// What holds of area sums, call after call: laws, no code.
#![tactic(auto)]
