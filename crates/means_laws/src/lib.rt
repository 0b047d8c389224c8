//! Laws of the meaning that `means_spec` gives to queries, after PuppetDB's query API v4. Each law is the contract of a function
//! with an empty body.
//!
//! - [`active_rows_are_selected`]: without a filter a query selects the rows of nodes that are neither deactivated nor expired.
//! - [`places_say_nothing`]: the places in a query don't change its answer.
//! - [`rows_are_printed_as_those_of_tables`], [`moments_can_be_printed`]: the printed text of rows.
//! - [`sums_print_their_value`], [`sums_print_numbers`]: the text of a sum.
//!
//! `specs/Laws.antt` states each law in a short definition, and `proofs/` has its proof.
//!
//! The text of a sum is a number. Below 10^19 that number has the sum's value.
#![tactic(auto)]

mod laws;

pub use laws::{
    active_rows_are_selected, moments_can_be_printed, places_say_nothing,
    rows_are_printed_as_those_of_tables, sums_print_numbers, sums_print_their_value,
};

// Re-exports for the crates above.
pub use paging_text;
