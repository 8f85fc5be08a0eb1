// Texts, tables and images with what the second program says of them: specs/ holds them, and this crate has no code.
#![tactic(auto)]
