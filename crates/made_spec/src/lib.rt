//! Defines the spools that the command `make` generates from a seed. `specs/Made.antt` defines the numbers of a seed, the payload
//! made from each number, and the text of the first n items.
#![tactic(auto)]

// Re-exports for the crates above.
pub use spool_spec::{MOST_SPOOL, fleet_rows, json_tree, stamp_time};
