//! Makes the calls of a core under a turn lock, one hold each.
//!
//! A [`Followed`] is the core under the lock, with how it came there. Each of its methods is one call of the core. [`claim`],
//! [`release`] and [`settle`] make those calls over the lock ([`Lock`]), for workers. Contracts see of one hold what the call did
//! between the core found and the core left (`OneCall` in `specs/Seen.antt`). The invariant says that the calls of all passes lead
//! from the first core to the last (`Follows` in `specs/Follows.antt`).
//!
//! - A [`Purpose`] says whether a hub takes commands and sweeps ([`AllCalls`]) or work alone ([`WorkAlone`]).
//! - [`values_go`] shows that a core may go from thread to thread.
#![tactic(auto)]

mod crossing;
mod entry;
mod followed;
mod purpose;
mod under_lock;

pub use crossing::values_go;
pub use entry::Entry;
pub use followed::Followed;
pub use purpose::{AllCalls, Purpose, WorkAlone};
pub use under_lock::{Lock, Pass, claim, release, settle};

// Re-exports for the crates above.
pub use core_ends::{Claimed, Job, Keeper, Prepared, Settled, Verdict, WorkEnd, end_of_settle};
