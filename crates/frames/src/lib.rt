// Theorems over the definitions of the pipettor: this crate has no code.
#![tactic(auto)]
