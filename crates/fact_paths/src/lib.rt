//! Reads facts as the rows of `fact_contents` and `inventory` (PuppetDB's query API v4, "Entities").
//!
//! A value's leaves are the places where it goes no deeper: whatever is neither an array nor an object, and empty arrays and
//! objects. A path leads to each: keys of objects, and indices of arrays from 0. A row's path begins with the fact's name.
//!
//! - [`leaves`] gives a row for each leaf of a fact, in the order of their paths.
//! - [`inventory`] gives the row of a factset.
//! - [`dotted`] finds a value by the names of members, as in `facts.os.family`.
//!
//! Guarantees of the contracts: these calls give exactly what specs/ defines, and their only error is lack of memory. The laws say
//! of the definition that each path leads back to its leaf, that no leaf is missing, and that the paths rise.
#![tactic(auto)]

mod factset;
mod laws;
mod list;
mod names;
mod step;
mod walk;

pub use factset::inventory;
pub use list::Rows;
pub use names::dotted;
pub use walk::leaves;

// The words of lower crates that the modules above use.
pub use fleet_rows;
