// This crate holds the worked sheets of document 01 (specs/) and their proof (proofs/), and no function.
#![tactic(auto)]
