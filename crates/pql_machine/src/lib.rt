//! Defines a machine that reads PQL token by token, and uses it to prove laws of the grammar. This crate has no code that runs;
//! `pql_reader` follows the machine.
//!
//! `specs/Machine.antt` has the machine: one state for each position in the grammar, and only states that some query continues.
//! `specs/Least.antt` has the least query that continues a state. By it the machine refuses filters that nest more than 100
//! levels.
//!
//! Each law is the contract of a function with an empty body. The main one is [`a_text_has_one_answer`].
//!
//! Further laws: tokens spell at most one query ([`tokens_spell_one_query`]). The machine returns it, or how many tokens begin
//! one ([`the_machine_tells_the_verdict`]).
#![tactic(auto)]

mod laws;

pub use laws::{a_text_has_one_answer, the_machine_tells_the_verdict, tokens_spell_one_query};
