//! Hands pending commands to workers, and takes them back.
//!
//! - [`claim`] claims the least command that may be claimed, after it has superseded the stale candidates. A command is stale if
//!   the newest applied command of its group has a greater rank.
//! - [`release`] queues a claimed command again, and [`free_claims`] all of them.
//!
//! Contracts say which events each call adds, and that the core then stands for the history with them. `specs/Claims.antt` says
//! what a claim's answer means in the history, `specs/Releases.antt` and `specs/Frees.antt` what the other two do.
//!
//! Each has one clause, `does`: the records `CoreClaims`, `CoreReleases` and `CoreFrees` (`specs/Calls.antt`). The fields of
//! `CoreClaims`:
//! - `gives`: stale candidates are superseded, then the least one is handed out. `adds`: exactly these events and records.
//! - Done comes only if nothing is pending (`nothing`), Down exactly if the core was down (`down`, `unchanged`). At Rest,
//!   QueueFault and Spent something is pending (`waits`).
//! - Spent comes only if the log has no room for a superseding record (`spent`), and then always, unless memory is missing
//!   (`unspent`). QueueFault is counted (`cause`).
//!
//! A release changes nothing if the core is down or the command isn't claimed (`unchanged`). [`free_claims`] requires a core
//! that is up, and leaves nothing claimed (`none`). Both take no memory and write to no disk, since a claim left room for its
//! release.
#![tactic(auto)]

mod answers;
mod choice;
mod claims;
mod free;
mod job;
mod releases;
mod turns;

pub use answers::Claimed;
pub use claims::claim;
pub use free::free_claims;
pub use job::Job;
pub use releases::release;

// Re-exports for the crates above.
pub use core_state::{
    CoreState, DownBy, Keeper, Kept, LogKeeper, MOST_LOG, Spelt, Tables, Tally, free_claim,
    is_claimed, keep_record, keep_spelt, put_record, take_out,
};
