//! Settles all pending commands with one worker.
//!
//! [`drain_alone`] claims, decodes and settles command after command. It ends when nothing is pending, or when a call of the core
//! answers a fault. Its contract says that the core stands for the history with the events of this work. It also says what the
//! images of the disks stand for at each moment, and when each [`WorkEnd`] comes.
//!
//! What each end says, and what one call of a core does, stands in `core_ends`.
//!
//! The clauses of [`drain_alone`]:
//! - `worked`: the events are claims, releases, supersedings, applied commands, failures and discards. After a call that took
//!   the core down nothing is written.
//! - `last`: the last call of the core answered the end. So a fault that was got over ends nothing.
//! - `unclaimed`: if the core is up in the end, nothing is claimed. Down comes exactly if the core was down (`down`).
//! - `ends`: Done only if nothing is pending. At QueueFault a command is pending, or the last applied one lacks its Done
//!   (`LacksDone`). At StoreDown a command is pending whose change may be in the store (`ChangeIsOpen`), and the store's count
//!   rose by two beyond the counted failures. Spent only if a record that would settle or supersede has no room.
//!
//! Costs: sixteen turns for each command, and one more. Running out of turns is Memory too. A counted failure of the store ends
//! nothing.
#![tactic(auto)]

mod drain;
mod work;

pub use drain::drain_alone;

// Re-exports for the crates above.
pub use core_ends::{
    Claimed, Core, DownBy, Found, Job, Keeper, LogKeeper, OpenCoreFault, Prepared, Settled,
    Submitted, Swept, Tally, Verdict, WorkEnd, lay_core, open_core,
};
