//! Laws of the queries that `query_spec` defines, after PuppetDB's query API v4, "AST query language". Each law is the contract
//! of a function with an empty body.
//!
//! - [`queries_are_what_the_grammar_spells`]: the values that are queries are exactly those of the grammar.
//! - [`a_text_has_one_answer`]: each text has exactly one answer.
//! - [`faults_stand_in_the_value`]: the place of a fault is a place in the value.
//! - [`the_first_fault_is_told`]: of unknown entities, unknown fields and bad operands the first of each kind is told.
//! - [`the_first_value_without_a_form_is_told`]: the same of the values that no form allows.
//! - [`each_entity_has_its_name`]: each entity is found by its name only.
//!
//! `specs/Grammar.antt` has the grammar as syntax trees, each with its JSON value and its meaning. `specs/Laws.antt` states each
//! law in a short definition, and `proofs/` has its proof. `specs/Refused.antt` and `specs/Faults.antt` say where the faults of a
//! value and of a query are, in no order.
//!
//! The filters of a query nest at most 100 levels.
#![tactic(auto)]

mod laws;

pub use laws::{
    a_text_has_one_answer, each_entity_has_its_name, faults_stand_in_the_value,
    queries_are_what_the_grammar_spells, routes_are_asked_what_the_grammar_spells,
    the_first_fault_is_told, the_first_value_without_a_form_is_told,
};
