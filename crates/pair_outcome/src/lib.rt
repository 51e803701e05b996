// This crate holds definitions (specs/) and laws (proofs/) of what is given of the pairs that two tables reach together: their table, or a refusal.
#![tactic(auto)]
