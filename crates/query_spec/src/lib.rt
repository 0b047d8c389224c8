//! Defines queries: their parts, their trees, the AST that spells them, the faults of names and operands, and the answer to a
//! text. The AST is a profile of PuppetDB's query API v4, "AST query language".
//!
//! - `specs/Query.antt`: the trees, over the parts that this crate has as Rust types.
//! - `specs/Words.antt`: the head words of the AST's lists. `specs/Parts.antt`: functions on the parts.
//! - `specs/Ast.antt`: which JSON values are queries, and at which place any other value goes wrong.
//! - `specs/Check.antt`: which names and operands a query may use.
//! - `specs/Answer.antt`: the answer to a text, from all of these.
//!
//! `specs/Code.antt` only encodes queries for the logic; no meaning depends on it.
//!
//! A part that a fault may name keeps its [`Place`]: its path in the JSON value, or the number of its PQL token. The meaning of a
//! query never depends on places.
#![tactic(auto)]

mod copy;
mod limits;
mod lists;
mod names;
mod parts;
mod place;
mod sought;
mod words;

pub use limits::{MOST_DEPTH, MOST_QUERY};
pub use lists::{Columns, Fields, Literals, Orders, Selection};
pub use names::entity_name;
pub use parts::{Field, Function, Literal, Name, Op, Order, Paging, Pattern, Scalar, Selected};
pub use place::{Path, Place};
pub use sought::Sought;
pub use words::{FieldWord, FilterWord, InnerWord, PartWord};

// Re-exports for the crates above.
pub use fleet_rows;
pub use fleet_rows::{json_tree, stamp_time};
