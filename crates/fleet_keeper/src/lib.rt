//! Keeps the store's records, so that a change is on disk before it is applied to the tables.
//!
//! A [`Keeper`] has a list of records, oldest first. `Keeper::keep` appends a record, `Keeper::keep_spelt` appends one that was
//! spelt before ([`Spelt`]), and `Keeper::checkpoint` replaces all records.
//!
//! - [`LogKeeper`] keeps its records as the frames of a pair of log files (the crate `log_pair`). [`open_keeper`] opens one and
//!   answers the records of the files. If a file is damaged, it answers the damage: bad bytes, or the first frame that can't
//!   continue a log of the store (`core_spec` says which).
//! - [`MemoryKeeper`] keeps them in memory, and fails at the calls that a test names.
//!
//! Contracts see a keeper's images as lists of records. They say what every image is after each answer. At every moment within a
//! call, an image is the old list or the new one. An image that is no list of records is seen as None, so that clauses on each
//! image cover it too.
//!
//! `specs/Spelt.antt` defines when frames are records. Most clauses instead cite a function that reads a record off a frame
//! (`specs/Records.antt`, `specs/Opened.antt`). The laws show that the two agree ([`frames_are_read_as_they_are_spelt`]), and
//! that damage has one position ([`two_files_are_damaged_at_one_place`]).
//!
//! Clauses and costs:
//! - `Spent` comes past 2^62 bytes of a log, 2^32 - 1 of a frame, or at the last generation: always, unless memory is missing
//!   (`spent`, `unspent`).
//! - Faults are counted (`cause`), and Down counts two (`twice`). A keeper's count starts at 0 and rises by no more than the
//!   counts of its disks (`within`).
//! - `keep_spelt` promises all that `keep` promises (`added`), and encodes nothing. A payload is copied once.
//! - [`open_keeper`]: the records are lawful and in their only spelling (`told`, `lawful`, `spelt`, `damaged`).
#![tactic(auto)]

mod answers;
mod frames;
mod keeper;
mod kept;
mod laws;
mod log_keeper;
mod memory;
mod opened;
mod records;
mod spelt;
mod step;

pub use core_spec::record_spec::StoreRecord;
pub use keeper::Keeper;
pub use kept::Kept;
pub use laws::{frames_are_read_as_they_are_spelt, two_files_are_damaged_at_one_place};
pub use log_keeper::LogKeeper;
pub use log_pair::{PairFault, Side};
pub use memory::MemoryKeeper;
pub use opened::open_keeper;
pub use port_memory::Numbers;
pub use records::StoreRecords;
pub use spelt::Spelt;

// Re-exports for the crates above.
pub use core_spec::record_spec;
pub use log_pair;
pub use log_pair::record_log;
pub use port_memory::fleet_ports;
pub use store_records;
