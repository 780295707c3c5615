// The marked cases of rule 11: definitions and one claim, no code.
#![tactic(auto)]
