//! Opens the state of a core over its four files.
//!
//! [`open_state`] reads the queue's log first. Each frame must be a record that may follow those before it; otherwise the log is
//! damaged at the frame's gate. The records give the pending commands, the discarded ones and the last receipt. A command's
//! payload is read for its group only if the command is pending at the end, since most have ended by then.
//!
//! Then it reads the store's log and fills the tables. If the receipt that the store applied last is still pending in the queue,
//! its Done is missing, and is written before the answer. The first event of the new core is a restart. Both logs may start with
//! the checkpoint of any earlier history.
//!
//! The one clause of [`open_state`] is the record `CoreOpens` (`specs/Call.antt`). Its fields:
//! - Exactly the records of the bytes are found, or the first damage, the queue's before the store's. Spent comes only if a
//!   missing Done has no room (`told`). Files that stand for a history are never called damaged (`never_damaged`), and damaged
//!   ones are not opened (`undamaged`).
//! - The core stands for each history and the restart (`stands`, `events`). Both logs have the records found, and the Done that
//!   was missing (`logs`). The core is up, with its starting counts (`up`, `start`).
//! - Only a missing Done is written, and nothing after a refusal except QueueFault (`untouched`). After a refusal the records are
//!   as they were read, or the queue has that Done too, whatever the images were (`kept`). So it is of each image at every moment
//!   within that isn't one of the start (`images`). Faults are counted (`queue_cause`, `store_cause`).
//!
//! Costs: one pass over both logs. Changes move into the tables. Of the queue's payloads, those of pending and discarded commands
//! are kept; a command that ended is dropped at the record that ends it. Of the rows only report texts are computed.
#![tactic(auto)]

mod faults;
mod fill;
mod greatest;
mod groups;
mod open;
mod parts;
mod prefix;
mod reading;
mod replay;

pub use faults::{FileName, OpenCoreFault};
pub use open::open_state;
