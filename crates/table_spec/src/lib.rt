//! Defines the rows of the tables that stand for a history, after PuppetDB's query API v4.
//!
//! Each cell is a function of a node's newest commands, its state and its kept reports. In `specs/`:
//!
//! - `Columns.antt`: the names of the columns.
//! - `Cells.antt`: what a command or a node shows in them. `Named.antt` finds a cell by its column's name and compares it with a
//!   text.
//! - `Rows.antt`: the rows of a history. `Sorted.antt` has the orders of rows within one node.
//! - `RowsText.antt`: the printed text of rows.
#![tactic(auto)]

// Re-exports for the crates above.
pub use history_spec::{fleet_rows, json_tree, stamp_time};
