//! Submits a command to the core.
//!
//! [`submit`] appends the command's record to the queue's log, and answers its receipt. Once a receipt is answered, no crash
//! loses the command. `specs/Submits.antt` says what each answer means and leaves.
//!
//! [`submit`] has one clause, `does`: the record `CoreSubmits` (`specs/Call.antt`). Its fields:
//! - `adds` and `writes`: exactly the event and the record. Full comes exactly by number and bytes (`full`), Down exactly if
//!   the core was down (`down`, `unchanged`).
//! - Spent comes only if no receipt or no room is left (`spent`), and then always, unless the core is down or full, or memory
//!   is missing (`unspent`).
//! - A refusal leaves what is held (`stays`, `fault`). QueueFault is counted (`cause`), and a log that goes down counts two
//!   faults (`twice`).
//!
//! It requires a payload of at most 16 MiB, received at a moment that has a stamp.
#![tactic(auto)]

mod prepare;
mod submission;
mod take;

pub use fleet_rows::Submitted;
pub use submission::submit;
