//! Gives JSON values a text that is equal for values that are the same.
//!
//! [`append_same`] appends it. Values that are the same ([`json_tree::same`]) get the same text, whatever the spelling of their
//! numbers and the order of their members. So a search over texts tells values apart, without comparing each pair of values. The
//! converse isn't promised: a number and the text of its scaled value share a text. So values with equal texts must still be
//! compared.
//!
//! The only error is lack of memory.
#![tactic(auto)]

mod alike;
mod append;

pub use append::append_same;

// The words of lower crates that the modules above use.
pub use json_tree;
