// This crate holds what programs that print pass on of a stored sheet, its names and ranges: definitions (specs/) and their laws (proofs/), and no function.
#![tactic(auto)]
