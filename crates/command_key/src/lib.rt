//! Reads a command's group and producer timestamp, which decide what newer commands supersede.
//!
//! [`key`] reads both off the payload in one pass and builds no tree. A report has no group, and neither has a command whose
//! payload lacks a certname or a stamp. The contract: the result is exactly `key_of` of the command, as `core_spec` defines it.
#![tactic(auto)]

mod command;

pub use command::key;

// Re-exports for the crates above.
pub use core_spec::json_tree;
