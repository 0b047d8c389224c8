//! Reads the AST of queries from bytes and checks it: a profile of PuppetDB's query API v4, "AST query language".
//!
//! [`read_ast`] reads a whole query, and [`read_filter`] reads the filter or extract that a route of an entity takes. Both return
//! a checked [`Query`] or an [`AstFault`] with its exact position.
//!
//! The contracts promise the answer that `AnswerOf` of `query_spec` relates to the text. A text has exactly one such answer (a
//! law of `query_laws`), so the calls can't return another query or another fault. The only other result is missing memory.
//!
//! Reading has three steps: bytes to a JSON value (`json_read`), the value to a tree by the forms of the AST (`filter.rt`,
//! `body.rt`, and `ast_parts` for what has no filter within), and the check of entities, fields and operands (`ast_tree`). So a
//! fault of an earlier step is reported even if a fault of a later step comes before it in the text.
//!
//! A fault is the first of these: too long, no JSON, no query, unknown entity, unknown field, bad operand.
#![tactic(auto)]

mod body;
mod compare;
mod filter;
mod read;
mod select;
mod shown;

pub use read::{AstFault, read_ast, read_filter};

// Re-exports for the crates above.
pub use ast_tree;
pub use json_read::{json_tree, stamp_time};
pub use query_spec;
pub use query_spec::fleet_rows;
