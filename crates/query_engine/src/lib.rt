//! Evaluates queries on the tables, and reads no more rows than it needs.
//!
//! [`select`] makes the plan of a query, compiles its patterns in preorder, and then finds the rows of each level once, inner
//! levels first. It returns [`Picked`] rows with the names of their columns, or a [`QueryFault`]. No recursion goes over rows.
//!
//! The main guarantees: Ok has exactly the rows that the query means, in order (`means_spec`, after PuppetDB's query API v4). A sum
//! that overflows 128 bits is reported exactly if the definition reports one, with the same place. The rows that are read are at
//! most those of the query's bound (`query_reach`). Contracts see the tables as a world of queries (`query_rows`).
//!
//! A level reads the rows that show what its filter demands (`query_reading`). [`select_reading`] can read all rows instead. A level
//! with a limit stops at the end of its page, where the page has the order of the tables. A bare count of an entity reads no row.
//!
//! Each step of a filter tests a single row. The rows of a level within `in` or `subquery`, and the literals of a long array, are
//! indexed by a text once. So a row is compared with few of them. Grouping takes a look-up for each row, and then sorts the groups.
//!
//! Texts are found by their hashes, under the keys of the pattern reader. If these are random, a look-up takes constant time on
//! average, whatever values were chosen by someone who doesn't know the keys. Under fixed keys such values make it slow.
//!
//! The clauses of [`select`]:
//! - SumTooLarge has the position of the first sum that overflows, BadPattern that of one of the query's patterns (`answer`,
//!   `stands`). If the pattern reader tells what it read, it is the first pattern refused (`asked`, `course`).
//! - The pattern reader counts BadPattern (`cause`). What patterns match stays (`same`). `bound` holds of each answer.
//!
//! Costs: chosen rows are made one by one. A row that is kept by reference is made whole only if the answer reads a column that isn't
//! seen by reference, as a hash; otherwise what is seen of it is copied. An array of more than eight literals is indexed.
#![tactic(auto)]

mod engine;
mod narrow;

pub use engine::{Picked, QueryFault, select, select_reading, select_uncounted};
pub use query_reading::Reading;

// Re-exports for the crates above.
pub use fleet_tables::{Steps, Tables};
