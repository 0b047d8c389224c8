//! Defines the format of a spool: a sequence of commands and sweeps. `specs/Spool.antt` defines the text of an item, and the
//! relation between the whole bytes and their items.
#![tactic(auto)]

mod limits;

pub use limits::MOST_SPOOL;

// Re-exports for the crates above.
pub use history_spec::{fleet_rows, json_tree, stamp_time};
