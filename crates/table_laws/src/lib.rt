//! Laws of the rows that `table_spec` defines, after PuppetDB's query API v4. Each law is the contract of a function with an
//! empty body.
//!
//! - Which rows there are: [`rows_are_those_of_the_newest_commands`], [`rows_of_reports_are_those_kept`].
//! - How they are sorted: [`rows_are_strictly_sorted`], [`the_order_between_purges_leaves_the_rows`].
//! - What their columns show: [`a_hash_is_that_of_the_other_columns`], [`a_node_shows_its_latest_report`].
//! - How they are printed: [`printed_rows_are_json`] (RFC 8259).
//!
//! A definition of `specs/` states each law, and `proofs/` has its proof.
//!
//! Further laws: a column's name finds its cell ([`a_cell_stands_under_its_column`]). A text equals the same text and the
//! moments that it names, and no other cell ([`a_text_equals_itself`]). Each node has exactly one row ([`a_node_has_one_row`]).
#![tactic(auto)]

mod columns;
mod nodes;
mod order;
mod rows;

pub use columns::{
    a_cell_stands_under_its_column, a_hash_is_that_of_the_other_columns,
    a_moment_is_printed_with_three_digits, a_report_shows_when_it_was_received,
    a_row_fills_its_columns, a_row_shows_its_environment, a_text_equals_itself,
};
pub use nodes::{
    a_node_has_one_row, a_node_shows_its_factset_and_catalog, a_node_shows_its_latest_report,
    a_node_shows_its_state,
};
pub use order::{rows_are_strictly_sorted, the_order_between_purges_leaves_the_rows};
pub use rows::{
    fact_rows_are_those_of_the_history, printed_rows_are_json,
    rows_are_those_of_the_newest_commands, rows_of_reports_are_those_kept,
};
