//! Encodes and decodes the fields of records.
//!
//! A `take_` function reads the field at the front of the bytes, and returns it with the bytes after it, or None if they begin
//! with no such field. It takes no memory: texts and byte strings are borrowed. A `put_` function appends the only encoding of a
//! field.
//!
//! Both follow `specs/Reading.antt` and the encodings of `record_spec`. `proofs/Fields.antt` proves that they agree: what is read
//! was encoded that way, and whatever is encoded can be read.
#![tactic(auto)]

mod behind;
mod front;
mod moment;

pub use behind::{put_bool, put_bytes, put_u32, put_u64};
pub use front::{take_bool, take_bytes, take_index, take_kind, take_text, take_u32, take_u64};
pub use moment::{put_moment, take_moment};

// Re-exports for the crates above.
pub use record_spec;
pub use record_spec::{fleet_rows, json_tree, stamp_time};
