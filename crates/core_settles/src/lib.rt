//! Ends claimed commands: applies their changes, discards them, or queues them again.
//!
//! A worker decodes a command and prepares the change ([`Prepared`]). Then [`settle`] keeps the change's record in the store,
//! applies the change, and writes a Done to the queue. A refused command is discarded. If the store fails, the failure is counted
//! in the queue; the sixteenth discards the command.
//!
//! The contract says which events a settle adds, and that the core then stands for the history with them. At each moment within,
//! the images of the disks stand for the history before, or for it and the record being written. `specs/Settles.antt` says what
//! each answer means in the history.
//!
//! [`settle`] requires a change or refusal that the command decodes to (`decodes`). It has one clause, `does`: the record
//! `CoreSettles` (`specs/Call.antt`). Its fields:
//! - `adds`, `queue_writes`, `store_writes`: exactly the events and the records. A refused command never writes to the store
//!   (`refusals`). The keeper's counts stay bounded (`keeper`).
//! - Spent, if a log has no room for the verdict, writes nothing and queues the command again (`leaves`, `unspent`). Memory
//!   hands job and verdict back and writes nothing. NotClaimed comes exactly if the command isn't claimed (`not_claimed`).
//! - QueueFault after the store's record leaves the command applied and the core down. Otherwise the command is queued again,
//!   or stays claimed if the log went down. QueueFault is counted (`cause`). What isn't applied or discarded is pending
//!   (`waits`).
//! - A failure of the store comes only if its count rose, StoreDown if it rose by two (`store_cause`). The count never falls
//!   (`store_later`). StoreDown leaves the queue's log, and the command claimed.
//! - At StoreDown an image may also have the change of the command. If its Done is missing, the command is applied in each
//!   image (`each_image`).
//!
//! Costs: two appends with syncs, and one copy of the payload. A change prepared for another job is spelt again. No clause says
//! that the prepared spelling is used.
#![tactic(auto)]

mod answers;
mod change;
mod failure;
mod keep;
mod prepared;
mod refuse;
mod settling;
mod steps;
mod write;

pub use answers::{Settled, Verdict};
pub use prepared::Prepared;
pub use settling::settle;

// Re-exports for the crates above.
pub use core_claims::{
    Claimed, CoreState, DownBy, Job, Keeper, LogKeeper, Tables, Tally, claim, free_claims, release,
};
