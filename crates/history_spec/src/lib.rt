//! Defines histories: what was applied to the tables and swept from them, what of it counts for a node, and the resulting rows of
//! facts.
//!
//! A history is a list of events, newest first. Every definition is a maximum or a selection over the whole list: which commands
//! of a node count since its last purge, which of a kind is the newest, whether the node is deactivated or expired, and which
//! reports are kept. The settings are PuppetDB's `node-ttl`, `node-purge-ttl` and `report-ttl`, and a limit on the reports of a
//! node.
//!
//! | file of `specs/` | defines |
//! |---|---|
//! | `Trace` | the events |
//! | `Lawful` | the rules that each change meets |
//! | `Life` | the part of a history that counts for a node |
//! | `Node` | what that part says about the node |
//! | `Report` | which of its reports are kept |
//! | `Facts` | the rows of facts |
//! | `Thread` | the history that a single thread makes from what arrives |
#![tactic(auto)]

// The words of lower crates that the files of `specs/` use.
pub use wire_spec::{fleet_rows, json_tree, stamp_time};
