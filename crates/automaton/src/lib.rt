// This crate holds definitions (specs/) and laws (proofs/) of endless words, tables and finite graphs, and the numbers by which code tests
// stored tables.
#![tactic(auto)]

// The entry for none.
pub const NO_STATE: u16 = 65535;

// The most rows that a table may have.
pub const MOST_ROWS: usize = 4096;
