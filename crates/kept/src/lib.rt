// What the passes of the blur keep, and what a call leaves whatever it answers: laws, no code.
#![tactic(auto)]
