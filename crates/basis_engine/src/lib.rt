// Document 01's rules as one machine, and demand 3 as one theorem. This crate has no function: specs/ says what is right, and
// proofs/ what follows from it.
#![tactic(auto)]
