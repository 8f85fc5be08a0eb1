// What follows from the rules: specs/ holds the theorems, and this crate has no code.
#![tactic(auto)]
