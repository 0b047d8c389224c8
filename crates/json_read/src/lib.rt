//! Reads JSON texts (RFC 8259), which may be hostile, and the members of the objects that they spell.
//!
//! [`read`] gives the value of a text, or the first offset at which no JSON text continues. The syntax trees of `text_spec`
//! (`JsonText.antt`) define what a text spells and where a text goes wrong, independently of any reader. Ok comes exactly for
//! JSON texts, with their value, and a fault exactly at its offset. Nesting stops at 127 levels (section 9). Of equal keys the
//! last gives the value and the first the position (section 4). Numbers keep their spelling. One pass reads the text, with a
//! stack of at most 127 entries. No input makes it recurse, look back, or take quadratic time.
//!
//! [`find`], [`text_field`] and their like read the members of an object. [`peek`] finds the certname and the stamp of a payload
//! without a tree.
//!
//! Costs and limits: equal keys cost n log n. [`peek`] makes one pass and builds no tree. [`find`] and the field readers take
//! no memory.
#![tactic(auto)]

mod container;
mod escape;
mod fault;
mod fields;
mod head;
mod number;
mod passed;
mod plain;
mod reader;
mod run;
mod stack;
mod string;
mod token;
mod value;

pub use fault::{FieldFault, ReadFault};
pub use fields::{bool_field, find, list_field, map_field, stamp_field, text_field};
pub use head::peek;
pub use reader::read;

// The words of lower crates that the modules above use.
pub use json_tree;
pub use stamp_time;
