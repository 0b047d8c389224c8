//! Sorts, cuts and prints the rows of an answer.
//!
//! [`page`] sorts rows by columns and applies an offset and a limit, after PuppetDB's query API v4, "Paging query results".
//! [`write_rows`] prints rows as a list of JSON objects (RFC 8259). [`OutRows`] has rows with the names of their columns.
//!
//! Contracts see the rows as `means_spec` defines them. The main promises: `page` leaves exactly the rows that the definition
//! leaves, and the text is exactly the definition's. The only error is missing memory.
//!
//! The clauses: `page` leaves the rows (`rows`) and returns how many there were (`total`). Rows with equal columns keep their
//! order. [`write_rows`] prints the definition's text (`text`). A moment that can't be printed becomes null, but no history has
//! such a moment.
#![tactic(auto)]

mod cut;
mod order;
mod rows;
mod write;

pub use cut::page;
pub use rows::{Lines, OutRows, Page};
pub use write::write_rows;
