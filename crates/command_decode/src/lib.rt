//! Decodes commands: gives the change of a command, or the one reason why it is refused.
//!
//! [`decode`] combines the JSON reader and the tables of PuppetDB's wire formats: "replace facts" 5, "replace catalog" 9, "store
//! report" 8, "deactivate node" 3 and "configure expiration" 1. Contracts cite `DecodeOf` of `wire_spec`, the relation between a
//! command and its answer. A command has exactly one answer (a law in `wire_laws`), so `decode` can give no other change or
//! refusal. Lack of memory is the one error outside that relation. A decoded change meets the rules of its fields (`IsChange` of
//! `history_spec`).
//!
//! The clauses of [`decode`]: a change has the command's kind (`kind`). A command with another version is refused for that
//! (`version`), otherwise for a payload that isn't JSON, with its position, otherwise for a field. The payload must have fewer
//! than 2^32 bytes, which is enough for `catalog` and `report`.
#![tactic(auto)]

mod command;
mod fault;
mod payload;

pub use command::decode;
pub use fault::DecodeFault;

// The words of lower crates that the modules above use.
pub use json_read::{json_tree, stamp_time};
pub use wire_catalog::{fleet_rows, wire_fields};
