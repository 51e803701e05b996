// This crate holds definitions (specs/) and laws (proofs/) of numbers that are stored as bytes, low byte first.
#![tactic(auto)]
