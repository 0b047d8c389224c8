//! Runs the commands that need no worker over the four disks, and says how the program ends.
//!
//! - [`sweep_disks`] makes one sweep, and [`compact_disks`] rewrites both logs as checkpoints.
//! - [`print_discards`] prints a line for each discarded command, and [`print_payload`] the payload of one of them.
//! - [`print_rows`] prints the rows that a query asks for, or ends with the reason why the query is refused.
//!
//! Each command opens a core over the disks ([`open_disks`]), and hands the disks back ([`Ended`]). A [`Status`] has a code,
//! which is the program's exit status, and a line for standard error. [`print_line`] writes that line and takes no memory.
//!
//! `specs/Openings.antt`, `specs/Calm.antt`, `specs/Compacting.antt` and `specs/Rows.antt` say what each command does to the
//! disks and prints. They say it by the history that the files stand for, as they are read.
//!
//! Guarantees of the contracts:
//! - [`open_disks`], if it opens a core (`OpensTo`): the core, and every image afterwards, stand for each history that the
//!   files stand for, and a restart. Before the call an image may have stood for another history, for example after a store
//!   that went down.
//! - [`open_disks`], otherwise (`IsUnopened`, `TellsFiles`): Damaged comes only with a damaged position (`damaged`), and never
//!   for files that stand for a history (`never`). Damaged files end with Damaged, unless a fault or missing memory comes first
//!   (`told`). The same holds for Spent and a missing Done without room (`spent`, `full`).
//! - [`sweep_disks`] (`IsSweepRun`): StoreFault and StoreDown come only if a store count rose (`store_cause`), StoreDown only
//!   if one rose by two (`store_twice`). Spent comes only if a missing Done has no room in the queue, or the sweep none in the
//!   store (`full`), and then always, unless memory is missing or a fault comes first (`roomy`). Damaged files are left
//!   untouched (`untouched`).
//! - [`compact_disks`] (`IsCompactRun`): the images change in order: the opening's, then the store's, then the queue's. At Done
//!   the other file of each log counts, with the next generation (`turned`). At QueueFault this holds for the store, or no core
//!   was opened (`half_turned`). At every other status the queue is as the opening left it (`queue_waits`), and at Memory the
//!   store too (`store_waits`). Spent comes only if a missing Done or the records have no room, or a log has no generation left
//!   (`full`), and then always, unless memory is missing or a fault comes first (`roomy`).
//! - [`print_discards`], [`print_payload`]: exactly the lines or the payload at Done, a proper prefix at WriteFault, otherwise
//!   nothing (`prints`). NoSuch comes exactly if nothing was discarded under the receipt, once a core is open. Only the opening
//!   writes to disks (`OnlyOpens`).
//! - [`print_rows`] (`IsQueryRun`): the text of the query's rows and a line end at Done, a proper prefix at WriteFault,
//!   otherwise nothing (`prints`). QueryRefused has the first reason and its position. A reader's refusal comes only if the
//!   text has it first (`told`).
//! - `Status::code` and `Status::line` are exact. [`print_line`] stops at the first fault.
//!
//! Costs and limits:
//! - An opening reads both logs. Lines and rows are built in memory and written at once. Only `line` takes memory for a status.
//! - [`print_rows`] reads the text once more, and first prepares the entities of which its query would compute the same several
//!   times. No clause says what is prepared.
//! - Only tests show that a sweep ends with Done if nothing fails and there is room.
#![tactic(auto)]

mod compact;
mod discards;
mod ended;
mod open;
mod payload;
mod preparing;
mod print;
mod rows;
mod status;
mod sweep;

pub use command_core::FileName;
pub use compact::compact_disks;
pub use discards::print_discards;
pub use ended::Ended;
pub use open::{open_disks, status_of_opening};
pub use payload::print_payload;
pub use print::print_line;
pub use query_answer::QueryRefusal;
pub use rows::print_rows;
pub use status::Status;
pub use sweep::sweep_disks;
