// What holds of every call on four planes: laws, no code.
#![tactic(auto)]
