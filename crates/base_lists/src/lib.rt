//! The lemma crate: lists that change at one place or grow by one element, lists that are cut into parts,
//! functions that change at one number, sums below a number, and what is in a list. It has no code: definitions that
//! several crates speak of, and their laws, each once.
#![tactic(auto)]
