//! Encodes and decodes the values of records: texts, numbers, JSON values, lists and options of them.
//!
//! A `take_` function reads the value at the front of the bytes, and returns it with the bytes after it, or None if they begin
//! with no such value. A `put_` function appends the only encoding of a value.
//!
//! Lengths and counts aren't trusted: a length past the end gives no value, and a list grows only as its items are read. A JSON
//! value is its compact text, within the nesting limit of its field.
#![tactic(auto)]

mod json;
mod list;
mod put;
mod value;

pub use json::take_members;
pub use list::{take_tags, take_values};
pub use put::{
    put_members, put_optional_bool, put_optional_moment, put_optional_text, put_optional_u64,
    put_text, put_texts, put_values,
};
pub use value::{
    own_optional, take_between, take_certname, take_optional_bool, take_optional_moment,
    take_optional_text, take_optional_u64, take_optional_whole,
};
