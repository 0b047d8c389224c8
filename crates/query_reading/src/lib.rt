//! Reads the rows of a level, and chooses those that pass its filter.
//!
//! [`pins_for`] tells what a level's filter demands of its rows, [`nodes_for`] to which nodes of an inner level it limits them, and
//! [`enough_for`] how many chosen rows suffice. [`chosen_rows`] then reads the rows and chooses.
//!
//! The main guarantees: the chosen rows are the first of those that the level means, as many as suffice, in order (`query_plan`). No
//! more rows are read than those in reach of the level's demands (`query_reach`), each with a row for each fact that the filter names.
//! Patterns are only tried, never read.
//!
//! The tables find the places of rows without reading a row. A row that is not in reach would fail the filter. If a conjunct demands
//! that a row's node is one of those of an inner level, and that level found few, only the rows of these nodes are asked for.
//!
//! A level with a limit and without groups stops as soon as it has chosen the rows up to the end of its page, if the page has the
//! order of the tables: by certname, and facts by name within a node.
//!
//! Costs: the places of a level's rows take 8 bytes each, unless a page is read from the first row on. Where the filter names no fact
//! and all rows are asked for, they are read in blocks of 1,024, and each pattern is tried on the texts of a block in one call. A
//! chosen row stays where the tables keep it, if the filter reads only columns that are seen by reference; otherwise it is made when
//! it is read. Activity is asked only of rows that pass the filter, and in a block once for neighbouring rows of a node.
#![tactic(auto)]

mod activity;
mod blocks;
mod choose;
mod facts;
mod joins;
mod narrow;
mod reading;
mod stopping;

pub use choose::chosen_rows;
pub use joins::{Nodes, nodes_for};
pub use reading::{Reading, pins_for};
pub use stopping::enough_for;
