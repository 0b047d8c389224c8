//! Defines the records of the two logs, queue and store, and the only encoding of each.
//!
//! A record is the body of one frame of a log file: a [`QueueRecord`] or a [`StoreRecord`]. `specs/Queue.antt` and
//! `specs/Store.antt` define the records and their encodings, `specs/Parts.antt` and `specs/Changes.antt` those of fields and
//! changes. Numbers are little endian. The fields of a record meet their rules; for changes these are `IsChange` of
//! `history_spec`. Bytes with other fields, or with more bytes after the fields, are no record.
//!
//! The types are defined here, below the crates that read and write them, so that the definitions of the core can refer to them.
#![tactic(auto)]

mod queue;
mod store;

pub use queue::QueueRecord;
pub use store::StoreRecord;

// Re-exports for the crates above.
pub use history_spec::{fleet_rows, json_tree, stamp_time};
