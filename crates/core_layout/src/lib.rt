//! Initializes the four files of the two logs, so that they stand for the empty history.
//!
//! [`lay_core`] writes the store's pair with the lifetimes and an empty base, and then the queue's pair with a base of receipt 0.
//! It opens the queue's first file last. Until then no file of the queue is open; from then on the files stand for the empty
//! history. So after a crash the files are initialized, or [`lay_core`] can be called again.
//!
//! Contracts see the disks' images: at return, what all four stand for; at every moment within the call, the images file by file.
//! The files are taken in the order in which they are written, since the disks share no clock.
//!
//! What the contract of [`lay_core`] promises:
//! - After Ok the first file of each log counts, with generation 1 and exactly its first records (`laid`). The order of the
//!   writes is a clause (`in_turn`), so a repeated call gives Ok or AlreadyLaid, unless a disk counts a fault or memory is
//!   missing.
//! - AlreadyLaid comes only if a file of each log is open (`already`). Then nothing else comes but a fault (`laid_before`).
//!   AlreadyLaid and Memory leave all disks (`untouched`).
//! - StoreFault leaves the queue's files (`store_fault`). QueueFault leaves all four, or the store is initialized
//!   (`queue_fault`). Both are counted (`queue_cause`, `store_cause`).
//!
//! Costs: at most five calls of each second file and some fifteen of each first, and memory for three short frames.
#![tactic(auto)]

mod first;
mod laid;
mod opened;
mod pairs;

pub use laid::{LayCoreFault, lay_core};

// Re-exports for the crates above.
pub use core_spec;
pub use log_pair::fleet_ports;
pub use queue_records::{fleet_rows, stamp_time};
