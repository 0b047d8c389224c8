//! The core as a whole: it takes commands in, hands them to workers, and applies what they decode to.
//!
//! [`lay_core`] initializes the four files of the two logs. [`open_core`] opens a [`Core`] over them, or over what an earlier
//! core or a crash left. Its calls:
//!
//! - [`Core::submit`] takes a command in and answers its receipt.
//! - [`Core::claim`] hands out a command as a [`Job`], and [`Core::settle`] ends it by the worker's verdict.
//! - [`Core::release`] and [`Core::free_claims`] queue claimed commands again.
//! - [`Core::sweep`] sweeps the tables.
//! - [`Core::compact`] rewrites both logs, as short as what the core holds. A full log answers Spent.
//! - [`Core::prepare`] computes what rows show, which an opening doesn't do. Readers of rows call it first, or
//!   [`Core::prepare_entity`] and [`Core::prepare_node`] for what they read.
//!
//! Contracts see a core as its `CoreState`. It is sound between the calls, and can always be written to logs. `StandsFor` in
//! `core_state` says which history a core stands for. Each call says which events it adds to that history. At each moment within
//! a call, a crash leaves images that stand for the history before, with a part of what the call was writing.
//!
//! The calls that change a core, and its opening, have one clause each, `does`. It is the record that the crate below states of
//! its own function: `CoreOpens` of `core_opening`, `CoreSubmits` of `core_submits`, `CoreClaims`, `CoreReleases` and `CoreFrees`
//! of `core_claims`, `CoreSettles` of `core_settles`, `CoreSweeps` of `core_sweeps`, `CoreCompacts` of `core_compact`. What the
//! contracts promise beside these:
//! - A core is sound and writable between the calls: that is the type's invariant (`IsAtRest`), so no call requires it.
//! - What [`lay_core`] left can be opened, undamaged ([`laid_files_can_be_opened`]).
//! - The tables of a core are lawful, so tables can be made from their list (`is_lawful`).
//! - `tables`, `discards`, `tally`, `pending`, `is_down` and `down_by` read exactly. `prepare` leaves the core as it is, also
//!   without memory. `into_disks` returns the four disks.
#![tactic(auto)]

mod calls;
mod laws;
mod open;

pub use calls::Core;
pub use core_compact::Compacted;
pub use core_layout::{LayCoreFault, lay_core};
pub use core_opening::{FileName, OpenCoreFault};
pub use core_settles::{Claimed, DownBy, Job, Prepared, Settled, Tally, Verdict};
pub use core_submits::Submitted;
pub use core_sweeps::Swept;
pub use laws::laid_files_can_be_opened;
pub use open::open_core;

// Re-exports for the crates above.
pub use core_settles::{Keeper, LogKeeper};
