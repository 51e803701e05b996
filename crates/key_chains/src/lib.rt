// This crate holds definitions (specs/) and laws (proofs/) of rows that are found again by chains of rows in the same bucket.
#![tactic(auto)]
