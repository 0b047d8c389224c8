//! Parses the arguments of the command line.
//!
//! [`asked_by`] returns the [`Request`] that the arguments spell with the text of a query, or None if they spell none.
//! [`read_words`] returns the request alone, and [`query_of`] the text. All three read the arguments through `clap`, which takes
//! memory: without it they answer [`Memory`]. [`needs_wait`] is true exactly if the first argument is `run` or `serve`. It takes
//! no memory.
//!
//! `specs/Words.antt` defines which arguments spell a request. The contracts promise that the parser accepts exactly those, and
//! that arguments spell at most one request ([`spells_one`]).
//!
//! [`query_of`] also finds a query after `--`. `docs/COMMANDS.md` has the table of commands.
#![tactic(auto)]

mod asked;
mod commands;
mod kinds;
mod lifetimes;
mod memory;
mod read;
mod request;
mod serving;
mod split;
mod told;
mod verb;

pub use memory::Memory;
pub use read::{asked_by, needs_wait, query_of, read_words, spells_one};
pub use request::{Asked, Request, Serving};

// Re-exports for the crates above.
pub use spool_spec::{json_tree, stamp_time};
