//! Keeps the pending commands and tells which one is next to be claimed.
//!
//! [`Pending`] holds the commands, sorted by receipt. A candidate is a queued command that nothing of its group holds back: no
//! command of the group is claimed, and no queued one has a greater rank. [`Pending::least`] answers the first candidate, which
//! is `first_candidate` of core_machine. Contracts see the list of entries, and say what a call does to it in the words of
//! core_machine's steps. Only [`Pending::add`] takes memory.
//!
//! Inside are two indexes: a tree by receipt, which marks each candidate, and for each group the ranks of its commands and the
//! number of claimed ones. A call changes one group, and moves the mark from the group's old candidate to its new one. So a call
//! takes time logarithmic in the number of pending commands, on average over the receipts.
//!
//! Costs: only groups and receipts are searched. `count`, `size` and `queued` take constant time. [`Pending::add`] takes 221 to
//! 990 bytes for each command of a full list.
#![tactic(auto)]

mod handover;
mod keys;
mod laws;
mod members;
mod pending;
mod steps;
mod turns;

pub use entry_tree::core_spec::Entry;
pub use laws::{a_failure_is_counted, an_add_is_undone};
pub use pending::Pending;

// Re-exports for the crates above.
pub use entry_tree::{fleet_rows, json_tree, record_spec, stamp_time};
