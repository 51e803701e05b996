// This crate holds the theorems about calls of the compile (proofs/Demands), about what `replay` prints (proofs/Replaying) and about letter counts and numbers (proofs/LetterNumbers), and the definitions that they need beside those of the layers below (specs/), and no function.
#![tactic(auto)]
