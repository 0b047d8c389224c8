//! Compacts a core: rewrites both logs as checkpoints of what the core holds.
//!
//! [`compact`] rewrites the store's log first, and then the queue's. It adds no event. At each moment within, each image of the
//! disks stands for the history that the core stands for. `specs/Compacts.antt` says what is written and what each answer leaves.
//!
//! [`compact`] has one clause, `does`: the record `CoreCompacts` (`specs/Call.antt`). Its fields:
//! - What the core holds in memory stays as it is (`memory`). `writes` gives each answer's records, sizes, generations and
//!   counting files of both logs. After Ok they are the history's checkpoints (`checkpoints`). The answer Memory changes
//!   nothing (`stays`).
//! - Spent comes only if a log has no generation left or can't take its records (`spent`). If it is the store's log, both are
//!   unchanged. If it is the queue's, the store's log is rewritten. Spent always comes in these cases, unless memory is missing
//!   or, for the queue's log, the store fails (`store_unspent`, `queue_unspent`).
//! - Faults are counted (`store_cause`, `queue_cause`). The core goes down only by such a fault (`store_goes_down`,
//!   `queue_goes_down`, `up`).
//!
//! It requires data that have a spelling (`spelling`). An opening, a settle and a sweep leave such data.
//!
//! Costs: a snapshot and a pass over everything. At the peak, what is applied is held three times, and what is pending or
//! discarded twice.
#![tactic(auto)]

mod answers;
mod compacting;
mod queue;
mod store;

pub use answers::Compacted;
pub use compacting::compact;
