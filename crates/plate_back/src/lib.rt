// What holds of plates that were started and added to, and what is read back of them: laws, no code.
#![tactic(auto)]
