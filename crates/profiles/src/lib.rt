// The whole-number blur beside the float blur, between the least and greatest input, and near the exact blur: definitions and laws, no code.
#![tactic(auto)]
