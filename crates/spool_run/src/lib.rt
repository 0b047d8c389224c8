//! Runs a spool: submits its commands to a core over four disks, and settles them by workers, each in a thread of its own.
//!
//! [`take_spool`] submits the commands in their order, and sweeps at each sweep item. Pending commands are settled before each
//! sweep, at the spool's end, and whenever [`MOST_WAITING`] commands or [`MOST_BYTES`] bytes of payload are pending.
//!
//! [`run_spool`] opens a core over the disks, takes the spool, and prints how many commands came in and how they ended.
//! [`run_core`] does the same with a core that was just opened, and leaves it open. `specs/Runs.antt` says what a run adds to the
//! history that the files stand for, as they are read. It does so for the end, and for what a crash leaves at each moment before.
//!
//! Guarantees of the contracts:
//! - [`take_spool`]: the taken items are those before the first malformed one, or a prefix of them (`ends`). Within the call
//!   images stand call by call (`Course`). The one open record is of work on a pending command, or of the next item when
//!   nothing else is due (`MayTake`). No command meets Full.
//! - `KeepsRules`: no command comes in while a batch, or a part that a drain left, is pending. Nothing is pending at a sweep.
//!   At ReadFault, or if the next submit fails or finds no room, less than a batch may stay pending.
//! - [`run_spool`] and [`run_core`] have the same clauses for 1 to 64 workers (`IsRun`). A course of cores leads from the
//!   opened core to the last one (`RanOn`). The order of the two logs' writes across calls isn't promised.
//! - [`whole_spools_are_one_thread`] (a law): after Done and SpoolBad the rows are those of one thread over what was pending
//!   and the items, without the discarded commands. Each submitted command has one ending.
//! - Only Done, SpoolBad and WriteFault print (`silent`). QueueFault comes only if a queue count rose (`queue_cause`), and
//!   StoreFault only if a store count rose (`store_cause`). At StoreDown one rose by two (`store_twice`), beyond the counted
//!   failures (`StoreRoseBehind`). At most as many failures are counted as the store's counts rose (`fails`).
//! - If nothing is counted and the files stand for a history, a whole spool ends with Done, Spent or Memory (`complete`). Any
//!   other spool ends with SpoolBad at its position, Spent or Memory (`complete_bad`).
//!
//! The statuses. At QueueFault, StoreFault, Spent and Memory the opening may have failed instead, so that nothing came in:
//!
//! | status | what came in, and what is left |
//! |---|---|
//! | Done | all items; nothing is pending, and the output is the summary of four lines |
//! | SpoolBad | the items before the malformed one, at its byte; otherwise as Done |
//! | WriteFault | as Done or SpoolBad, with a proper prefix of the summary |
//! | ReadFault | the items of the bytes that were read; no batch or unfinished drain is pending |
//! | QueueFault | a prefix; a command comes next or is pending, or the last applied one lacks its Done |
//! | StoreDown | a prefix; a command is pending, or a sweep comes next; an image may have that change or that sweep |
//! | StoreFault | a prefix; a sweep comes next, and nothing is pending |
//! | Spent | a prefix; no receipt or no room for the next command, sweep or settling |
//! | Memory | a prefix |
//! | Damaged | nothing: only an opening answers it |
#![tactic(auto)]

mod batch;
mod ends;
mod intake;
mod item;
mod run;
mod summary;
mod thread;

pub use batch::{MOST_BYTES, MOST_WAITING};
pub use ends::{SpoolEnd, Taken};
pub use intake::take_spool;
pub use run::{RanCore, run_core, run_spool};
pub use thread::whole_spools_are_one_thread;

// Re-exports for the crates above.
pub use calm_commands::{
    Ended, FileName, QueryRefusal, Status, compact_disks, open_disks, print_discards, print_line,
    print_payload, print_rows, sweep_disks,
};
pub use fleet_hub::{Core, Gate, LogKeeper, OpenGate};
