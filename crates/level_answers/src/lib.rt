//! Makes the answer of a level from the rows that it chose: groups, sums and other functions, the page, and what is shown.
//!
//! [`group_answer`] makes the answer of a level that groups its rows, from the rows as they are seen, or tells the place of the first
//! sum that overflows ([`Answered`]). [`page_answer`] makes that of a level without groups. [`counted`] answers a level that only
//! counts the rows of an entity, without their rows. [`output_names`] names the columns that a level shows.
//!
//! The main guarantees: the rows are exactly those that the level means, in order (`means_spec`). A sum that overflows 128 bits is
//! told exactly if the definition tells one, with the same place.
//!
//! Costs: grouping takes a look-up for each row, and then sorts the groups. Rows are found by hashes of their texts, under keys that
//! the caller passes.
#![tactic(auto)]

mod answer;
mod counting;
mod functions;
mod groups;
mod shown;
mod sums;

pub use answer::{Answered, group_answer, page_answer};
pub use counting::counted;
pub use shown::output_names;

// Re-exports for the crate above.
pub use paging_text::{Lines, OutRows};
pub use row_views::{KeptRows, View, is_referred};
