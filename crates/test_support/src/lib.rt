//! What crates of tests share. There is nothing here but what tests use.
//!
//! - `texts`, `words`: words, numbers and bytes in the lines of cases.
//! - `pieces`: bytes that come in pieces, and room for what is written, as ends of a stream.
//! - `files`, `items`: four files on disks in memory that fail, stop and crash; and the items of a spool.
//! - `faults`, `records`, `notes`, `trials`: cases over disks of which one call after the other fails, files by the names of their
//!   records, and what the answers lack.
//! - `given`, `told`, `script`: what a command gets, what it came to, and the lines of a script that say so.
//! - `exchange`: what comes in on a link, and what is to come of it.
//! - `rounds`: the scenarios of a text, each with its numbers, and what came of its rounds.
#![tactic(auto)]

mod exchange;
mod faults;
mod files;
mod given;
mod items;
mod notes;
mod pieces;
mod records;
mod rounds;
mod script;
mod texts;
mod told;
mod trials;
mod words;

pub use exchange::Exchange;
pub use faults::{
    Fault, NO_FAULT, crashed_disk, crashed_disks, fused, fused_disks, weak_disk, weak_disks,
};
pub use files::{Stored, numbers};
pub use given::Given;
pub use notes::{Notes, count_of, gives, made, numbers_of, parts_of, says};
pub use pieces::{Pieces, Room};
pub use records::{file, record_of};
pub use rounds::{Rounds, add_text, rounds_of, scenarios_of, turns_of};
pub use script::Script;
pub use texts::{add_bytes, add_line, add_words, bytes_of, number_of, parted};
pub use told::{Told, code_of};
pub use trials::{Trial, tried};
pub use words::{query_of, words_of};
