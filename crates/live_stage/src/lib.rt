//! The core of a live server behind a turn lock: threads submit, sweep, look, claim and settle in turns.
//!
//! A [`Stage`] is a core with notes beside it. A note tells of a command or a sweep that was refused by a fault or by a core that
//! is down, and stands at its place among the core's events. So the list that the lock keeps has all that a client may be told of.
//!
//! The live trace is the list of the applied commands and of the sweeps since the core's opening. A thread that answers queries has
//! a [`Snapshot`]: tables of the first events of the live trace, and their number. [`look`] brings it up to date in one hold. It
//! takes along the commands and sweeps that the tables lack, and copies no tables. [`Snapshot::catch_up`] applies them when the
//! lock is free again. The stage keeps the newest of them on a shelf; a thread that lacks more copies all tables once. Before the
//! threads start, [`FirstTables`] copies the tables once, and each thread makes its first snapshot from this list.
//!
//! The promises:
//! - Each call is one hold. It appends what it did to the core: its events, or one note (`added` in `specs/StageCalls.antt`).
//! - A note has its cause in every core that follows (`IsNoted` in `specs/Causes.antt`).
//! - Tables of the first events stay those, whatever other threads do (`HasFirst` in `specs/Trace.antt`).
//! - A worker claims and settles, and nothing else (`WorksOn` in `specs/StageCalls.antt`). It stops only if its last call was told
//!   that the core is down, or if the server closes and that call left nothing to do (`TurnsTo` in `specs/WorkEnds.antt`).
//! - At the close, the calls of all passes appended each entry, each once (`ClosedFrom`).
#![tactic(auto)]

mod first;
mod note;
mod sharing;
mod shelf;
mod snapshot;
mod stage;
mod under_lock;
mod worker;

pub use first::FirstTables;
pub use note::{Note, Refused, Staged};
pub use sharing::{close, share};
pub use shelf::Step;
pub use snapshot::Snapshot;
pub use stage::Stage;
pub use under_lock::{StageLock, StagePass, claim, look, release, settle, submit, sweep};
pub use worker::{WorkStop, work};
