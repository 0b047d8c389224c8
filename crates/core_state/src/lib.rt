//! Holds the parts of a core, and says which history a core stands for.
//!
//! A core takes commands in, hands them out to workers, and applies the changes they decode to. [`CoreState`] holds its parts:
//!
//! - on the disks the queue's log, and the keeper of the store's records;
//! - in memory the tables, the pending commands, the discarded commands, and the [`Events`] since the core was opened. Of an event
//!   memory holds the kind alone, so payloads of commands that ended are gone.
//!
//! A core stands for a history that the records found at its opening stand for, followed by its events. Contracts know those
//! records as [`Found`].
//!
//! `specs/Seen.antt` says what contracts see of the parts, and what always holds of them. `specs/StandsFor.antt` defines the
//! history, and `specs/Moments.antt` what may be on the disks at the moments within a call. The calls that change a core are in
//! crates above this one, and share these definitions.
//!
//! A core stands for a history (`StandsFor`) if three things hold:
//! - Tables, pending and discarded commands and the last receipt are what the history says (`HoldsFor`).
//! - If the core is up, the records of both logs tell the history (`LogsTell`).
//! - Every image of the disks stands for it. If the core is down, an image may have the one open record too (`ImagesStand`).
#![tactic(auto)]

mod events;
mod found;
mod note;
mod puts;
mod state;
mod tally;
mod waiting;

pub use events::Events;
pub use found::Found;
pub use puts::{keep_record, keep_spelt, put_record};
pub use state::{CoreState, DownBy};
pub use tally::Tally;
pub use waiting::{free_claim, is_claimed, take_out};

// Re-exports for the crates above.
pub use fleet_tables::Tables;
pub use queue_log::fleet_keeper::record_log::Frames;
pub use queue_log::fleet_keeper::record_log::log_spec::MOST_LOG;
pub use queue_log::fleet_keeper::{
    Keeper, Kept, LogKeeper, PairFault, Side, Spelt, StoreRecord, StoreRecords, open_keeper,
};
pub use queue_log::{QueueLog, QueueRecords, open_queue};
