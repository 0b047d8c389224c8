//! Says what a query needs to be computed of the tables before their rows are read.
//!
//! Rows that aren't prepared compute what they show when they are read. A hash is then computed for its row alone. But a row of
//! facts, resources or edges needs the order of all such rows of its node. So one query ([`Readers::One`]) needs an entity if a level
//! reads several of these of a node, or if two levels read it. It never needs nodes: to prepare them would hash each of their
//! reports, and a node's row shows the latest alone.
//!
//! Where later queries may read the same rows ([`Readers::Many`]), a query needs each entity that a level reads.
//!
//! For a level of one node, either needs that node alone. [`needs_of`] tells the [`Needs`] of a query. No contract says what they
//! are, since no answer depends on what is prepared.
//!
//! Costs: the query is planned once more, and each level is walked a few times. No row is read.
#![tactic(auto)]

mod level;
mod needs;

pub use level::Readers;
pub use needs::{Needs, NodeNeed, needs_of};
