//! Defines what queries mean, after PuppetDB's query API v4: the rows that a query selects, and their printed text.
//!
//! A query is evaluated on a `World` (`specs/World.antt`): the rows of each entity in the order of their keys, the inactive
//! nodes, and which texts a pattern matches. In `specs/`:
//!
//! - `Cells.antt`: the values that a filter tests in a row, and how cells are compared.
//! - `Means.antt`: the rows that a filter and a level select.
//! - `Shown.antt`, `Groups.antt`: what is shown of a row and of a group of rows.
//! - `Paging.antt`: order, offset and limit.
//! - `Sums.antt`: which sums overflow 128 bits.
//! - `OutRows.antt`: the answer with the names of its columns, and its text.
//!
//! The selected rows don't depend on the places in a query. A place only names a sum that is too large.
#![tactic(auto)]

// Re-exports for the crates above.
pub use query_spec;
pub use table_spec::{fleet_rows, json_tree, stamp_time};
