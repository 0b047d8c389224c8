//! General lemmas about booleans, options, digits, lists and orderings. They use the words of `std` alone. The crate has no code.
//!
//! Each file of `proofs/` holds one topic. Lemmas about texts and JSON values are in the proofs of `text_spec`.
#![tactic(auto)]
