//! The whole program, as functions over its arguments, streams and disks.
//!
//! [`run_program`] takes the arguments, the disks, the spool, the output and the errors. It answers the exit status and the
//! disks. It calls [`run_busy`] for the commands that may wait, and [`run_calm`] for the others, and prints the line of the
//! [`Status`].
//!
//! - `show` reads a spool to its end, applies it to the tables, and prints the facts of the active nodes.
//! - `init` initializes the four files of the two logs.
//! - `run` takes a spool into a core over the files, and may serve connections afterwards.
//! - `serve` answers the connections of an HTTP listener over a core.
//! - `sweep`, `compact`, `discards`, `payload` and `query` open a core for one task.
//! - `make` prints a spool.
//!
//! Contracts see the images of the disks, and all fault counts. They see the bytes that a source has left and that a sink holds,
//! if these tell them. What is printed follows from the definitions of spools, of one thread's history and of its rows. What the
//! files hold follows from the history that they stand for, as they are read; after `init` that is the empty history.
//!
//! Guarantees of the contracts:
//! - [`run_program`]: the status and the disks are those of `run_busy` if the first argument is `run` or `serve`, otherwise
//!   those of `run_calm` with the front unchanged (`run`, `IsAnyRun`). The status's line goes to the errors, or a prefix of it
//!   if they counted a fault. Status 0 leaves the errors unchanged (`quiet`). Status 2 leaves spool, output, front and patterns
//!   unchanged (`usage`).
//! - If no run begins, the status is Usage for arguments that aren't UTF-8, Memory for missing memory, and QueueFault or
//!   StoreFault for a file that can't be opened. No disks come back, and the streams, front and patterns are unchanged
//!   (`no_run`).
//! - [`run_calm`] (`IsCalmRun`): Usage comes only if the arguments spell none of its commands, and for those nothing but Usage
//!   or Memory comes. Then nothing is changed. `show` and `make` leave the disks. `init`, `sweep` and `compact` leave the
//!   streams, the other commands the spool. Only `query` touches the patterns. Without memory to read the arguments any command
//!   ends with Memory and changes nothing (`IsUnread`).
//! - `show` (`IsShowRun`): lifetimes are the default ones, and a command that its wire format refuses is left out. Without a
//!   counted fault a whole spool ends with Done or Memory (`complete`). Any other spool ends with SpoolBad at its position, or
//!   with Memory (`complete_bad`). At WriteFault a proper prefix was written (`prints_part`), at other failures nothing
//!   (`silent`).
//! - `init` (`IsInitRun`): Done, QueueFault, StoreFault, AlreadyLaid or Memory, each as `lay_core` of `core_layout` says.
//! - `make` (`IsMakeRun`): the whole text at Done, a proper prefix at WriteFault, a prefix at Memory (`prints`, `prints_part`,
//!   `prints_front`).
//! - [`needs_disks`]: true exactly for requests other than `show` and `make`, or want of memory.
//!
//! Costs and limits:
//! - Printing the line takes no memory. Only `run` and `serve` may wait.
//! - `show` makes one pass over the spool, sorts each node's facts, and makes two binary searches for each row. Memory holds
//!   the newest commands, the kept reports, one item and the printed text.
#![tactic(auto)]

mod calm;
mod making;
mod program;
mod read;
mod rows;
mod show;
mod words;

pub use busy_commands::{Ended, FileName, Gate, OpenGate, QueryRefusal, Status, run_busy};
pub use calm::run_calm;
pub use program::{Exit, StartFault, run_program};
pub use program_words::needs_wait;
pub use words::needs_disks;
