//! Keeps the queue's records in a pair of log files: which commands came in, and what became of them.
//!
//! [`open_queue`] opens the two files and answers their frames. It doesn't read the frames as records; the caller does, and
//! checks whether each may stand where it stands. [`QueueLog::put`] appends the frame of a record, and [`QueueLog::checkpoint`]
//! replaces all records. A record is one frame, in its only spelling (the crate `queue_records`).
//!
//! Contracts see the images of the log as lists of records, and an image that is no list of records as None. They say what every
//! image is after each answer. At every moment within a call, an image is the old list or the new one.
//!
//! Several puts in a row write the same file, so their moments can be joined. `QueueLeaves` in `specs/Queued.antt` says what a
//! run of puts left at every moment within it. `proofs/Runs.antt` joins two runs.
//!
//! Clauses and costs:
//! - [`QueueLog::put`]: the clauses hold for whatever record the frame spells (`any_moment`, `each`, `ok`, `refused`). Spent
//!   comes exactly past 2^62 bytes of the file or 2^32 - 1 of the frame (`spent`). A frame of at most 64 bytes never meets
//!   Memory (`short`). Faults are counted (`cause`).
//! - [`QueueLog::checkpoint`]: after Ok the other file counts, with the next generation (`side`, `generation`). Spent comes
//!   exactly if no generation is left, a frame is too long, or the file would pass 2^62 bytes (`spent`). It takes no memory
//!   (`memory`).
#![tactic(auto)]

mod checkpoint;
mod opened;
mod put;
mod queue;
mod records;

pub use fleet_keeper::Kept;
pub use fleet_keeper::log_pair::{PairFault, Side};
pub use fleet_keeper::record_spec::QueueRecord;
pub use opened::open_queue;
pub use queue::QueueLog;
pub use records::QueueRecords;

// Re-exports for the crates above.
pub use fleet_keeper;
pub use fleet_keeper::{fleet_ports, store_records};
pub use queue_records;
