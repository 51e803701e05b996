// This crate holds laws (proofs/), and no function.
#![tactic(auto)]
