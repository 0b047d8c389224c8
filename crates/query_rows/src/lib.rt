//! Evaluates one row of a query: the cells that it has, the steps of a filter on it, and the indexes by which rows are found.
//!
//! [`holds`] runs the steps of a filter ([`Ready`]) on a row within a [`Scene`], [`is_seen`] asks whether the row's node is
//! active. [`Known`] has the rows of an inner level, [`FactRows`] those of all facts, each under the text by which an outer row
//! looks for them. [`with_marks`] gives rows of one group the same mark, and [`parts_of`] sorts rows by their marks.
//!
//! [`columns_of`] tries the patterns of a filter on the texts of a block of rows at once, and [`holds_given`] runs its steps on a
//! row of the block with these answers.
//!
//! The main guarantees: `holds` answers exactly what the filter's steps mean on the row (`means_spec`, `query_plan`), and tries
//! texts only on patterns that were read before. `known_of` and `fact_rows` store exactly the rows that they are given.
//!
//! Costs: a row is compared with the few rows and literals that have its text. An array of more than eight literals is indexed.
//! Texts are found by their hashes, under keys that the caller passes. If the keys are random, marks of n rows and n look-ups take
//! n steps on average, whatever values were chosen by someone who doesn't know the keys.
#![tactic(auto)]

mod blocks;
mod cells;
mod compare;
mod index;
mod known;
mod literals;
mod marks;
mod order;
mod parts;
mod run;
mod scene;
mod seen;
mod tuples;

pub use blocks::{Column, columns_of, holds_given};
pub use cells::{column_names, copy_or_null, node_in, node_seen, text_seen};
pub use compare::{is_null, same_seen};
pub use index::{Index, PlaceList};
pub use known::{FactRows, Known, Lookup, fact_rows, known_of};
pub use literals::{Ready, ready_steps};
pub use marks::{Marked, in_one_group, with_marks};
pub use order::seen_order;
pub use parts::{Part, parts_of, put};
pub use run::{holds, is_seen};
pub use scene::Scene;
