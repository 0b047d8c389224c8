//! Evaluates queries by reading all rows of each level, for comparison with the engine that reads few.
//!
//! [`select_plain`] answers what `query_engine::select` answers, with the same cause for each refusal.
#![tactic(auto)]

mod plain;

pub use plain::select_plain;

// Re-exports for the crates above.
pub use query_engine::{Picked, QueryFault, Tables};
