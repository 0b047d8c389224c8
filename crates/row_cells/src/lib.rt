//! Makes the rows of commands and nodes: the cells of each column, the orders of rows, and the hashes.
//!
//! - Rows: [`factset_row`], [`fact_row`], [`catalog_row`], [`resource_row`], [`edge_row`], [`report_row`] and [`node_row`]. A
//!   row's cells are copies and share nothing with the command.
//! - Orders: [`fact_order`], [`resource_order`] and [`edge_order`] return indices into the command's lists.
//! - Hashes: [`factset_hash`], [`resource_hash`], [`resource_hashes`] and [`catalog_hash`]. [`report_canonical`] returns a
//!   report's canonical text, from which its hash is made and by which reports are told apart.
//!
//! The contracts promise the rows and orders of `table_spec`, cell by cell, after PuppetDB's query API v4. A hash is the SHA-1
//! (FIPS 180-4) of a canonical text, as 40 lower-case hexadecimal digits. The text has the row's other columns. A catalog's text
//! also has its resources' hashes and its edges, and a resource's text leaves out the node's columns.
//!
//! Texts are written directly, without a JSON tree or copies of values. They contain moments as stamps with nine fraction
//! digits, so these calls require moments that can be printed. Every moment with a stamp can be. The only error is missing
//! memory.
//!
//! The caller passes the hash to the calls that make rows with a hash. Sorting takes n log n steps and copies no text.
#![tactic(auto)]

mod hash;
mod hash_of_catalog;
mod node;
mod order;
mod relationship;
mod rows;
mod shown;
mod text;

pub use hash::{factset_hash, report_canonical, resource_hash};
pub use hash_of_catalog::{catalog_hash, resource_hashes};
pub use node::{ReportHead, node_row};
pub use order::{edge_order, fact_order, resource_order};
pub use rows::{catalog_row, edge_row, fact_row, factset_row, report_row, resource_row};
