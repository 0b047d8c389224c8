//! Generates spools to try the service with.
//!
//! [`make`] writes the spool of `count` items that a seed leads to. The text is the same on every machine: facts, facts, a
//! catalog and a report take turns, over fifty nodes. `made_spec` defines it.
//!
//! After [`Made::Ok`] the sink has the whole text after its earlier bytes. After a write fault or without memory it has only a
//! prefix of the text. [`made_text_is_a_spool`] says that the text is a spool of `count` commands.
//!
//! The clauses of [`make`] are `which` and `cause`. A write fault is counted by the sink. What the commands decode to is
//! neither proved nor tested.
//!
//! Costs: a few hundred bytes for each item, one write for each 64 KiB, and memory for two such pieces.
#![tactic(auto)]

mod item;
mod laws;
mod maker;
mod payload;
mod stamp;

pub use laws::{fewer_items_are_a_front, made_text_is_a_spool};
pub use maker::{Made, make};

// Re-exports for the crates above.
pub use fleet_ports;
pub use made_spec::{MOST_SPOOL, fleet_rows, json_tree, stamp_time};
