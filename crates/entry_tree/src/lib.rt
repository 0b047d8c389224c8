//! Keeps the pending commands sorted by receipt, some of them marked as candidates.
//!
//! An [`EntryTree`] is a search tree by receipt. Contracts see it as the list of its entries. Each fork knows how many entries it
//! has, and how many of them are candidates. So an entry is found by receipt or by index, and the first candidate too, on one way
//! down.
//!
//! A hash of the receipt decides which fork stands above. So the tree is low on average, whatever is taken out. Only
//! [`Spot::new`] takes memory.
#![tactic(auto)]

mod edits;
mod joins;
mod reads;
mod sides;
mod spot;
mod tree;
mod waiting;

pub use spot::Spot;
pub use tree::EntryTree;
pub use waiting::{Change, GroupKey, Waiting};

// Re-exports for the crates above.
pub use core_machine::{core_spec, fleet_rows, json_tree, record_spec, stamp_time};
