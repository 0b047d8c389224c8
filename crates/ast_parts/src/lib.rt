//! Reads the parts of AST queries that have no filter within: head words, names, fields, columns, literals, patterns and paging.
//!
//! Each call takes a JSON value and its place. It returns what the definitions of `query_spec` read there, or a [`FormFault`] with
//! the place of the fault. The only other result is missing memory.
#![tactic(auto)]

mod elements;
mod fault;
mod operands;
mod page;
mod parts;
mod words;

pub use elements::{Elements, elements_of};
pub use fault::FormFault;
pub use operands::{array, literal, pattern, truth};
pub use page::{paging, unpaged};
pub use parts::{columns, copy_text, field, group, left, name, refused, refused_within, split};
pub use words::{behind_select, filter_word, function_named, inner_word, part_word};
