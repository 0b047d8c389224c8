//! Represents queries as trees, checks their names and operands, and copies them.
//!
//! A [`Query`] is a [`Level`]: a selection of an entity with a [`Filter`], which may contain more levels. Contracts see them as
//! the trees of `query_spec`, after the AST of PuppetDB's query API v4. Each name and each operand keeps its place in the text.
//!
//! A query names only existing entities: [`Query::new`] reports the first name that is none. [`check`] reports exactly the first
//! field that its entity lacks, or the first invalid operand if all fields exist. Neither call takes memory.
//!
//! [`check`] goes through the levels in preorder.
#![tactic(auto)]

mod copy;
mod entity;
mod operand;
mod query;
mod shown;
mod tree;
mod walk;

pub use entity::{entity_of, is_stamp_column};
pub use query::{CheckFault, Query, check};
pub use query_spec::{
    Columns, Field, Fields, Function, Literal, Literals, Name, Op, Order, Orders, Paging, Path,
    Pattern, Place, Scalar, Selected, Selection, Sought,
};
pub use shown::{function_name, has_output, is_function, makes_groups, output_name, shown_list};
pub use tree::{Clause, Filter, Filters, Level, Operand};

// Re-exports for the crates above.
pub use query_spec;
pub use query_spec::fleet_rows;
