//! Makes a flat plan of a query, and proves that the plan does what the query means.
//!
//! [`plan_of`] makes the [`Plan`] in one walk: the query's patterns in preorder, its levels with inner ones first, and for each
//! level the steps of its filter on a stack of booleans (`specs/Plan.antt`). An evaluator compiles the patterns once and then
//! finds the rows of one level after the other. So no recursion goes over rows, tables or patterns.
//!
//! The main promise, [`plans_do_what_queries_mean`]: the rows of the last level are those that the query selects, and the first
//! sum that is too large is the query's.
//!
//! The plan takes one walk over the tree.
#![tactic(auto)]

mod laws;
mod plan;
mod step;

pub use laws::plans_do_what_queries_mean;
pub use plan::plan_of;
pub use step::{Plan, Shape, Stage, Step, Steps};

// Re-exports for the crates above.
pub use ast_tree;
pub use ast_tree::query_spec;
