//! Defines the wire formats: the change that a command's payload stands for, or the reason why it is refused.
//!
//! - `specs/Refusals.antt`: the names of fields and the printed refusals.
//! - `specs/Table.antt`: the fields of each format, in the order in which they are checked.
//! - `specs/Decode.antt`: the relation between a command and its answer.
//! - `specs/Counted.antt`: values whose lists 32-bit indices can count. proofs/CountedLaws.antt shows that their parts are such
//!   values too.
//!
//! The formats are PuppetDB's "replace facts" 5, "replace catalog" 9, "store report" 8, "deactivate node" 3 and "configure
//! expiration" 1.
#![tactic(auto)]

// The words of lower crates that the modules above use.
pub use fleet_rows;
pub use fleet_rows::{json_tree, stamp_time};
