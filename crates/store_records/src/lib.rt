//! Encodes and decodes the records of the store's log.
//!
//! A record is the body of one frame of the log file. [`write_store`] returns its only encoding, the `store_text` of
//! `record_spec`. [`read_store`] returns the record that all of the bytes encode, or None.
//!
//! A record that is read meets every rule of its fields:
//!
//! - Texts are UTF-8, and certnames aren't empty. Moments have stamps.
//! - Whole numbers have at most 18 digits. Lifetimes are within their bounds.
//! - Tags are strictly sorted. Edges and names of resources are distinct.
//! - The wire format accepts a report's lists.
//! - A JSON value is its compact text, within the nesting limit of its field.
//!
//! The contracts promise that each record has exactly one encoding and that no two records share one. `specs/Reading.antt` reads
//! a record from left to right, and the laws ([`what_is_read_is_spelled_so`] and the others) tie it to the encoding.
//!
//! Lengths and counts aren't trusted: a length past the end gives no record, and a list grows only as its items are read.
//!
//! Of [`read_store`], `exact` and `found` say that a record is returned exactly if the bytes spell it. Names of resources and
//! edges cost n log n steps, tags one pass.
#![tactic(auto)]

mod laws;
mod read;
mod write;

pub use laws::{
    a_spelling_has_one_record, a_spelling_is_read, other_bytes_are_no_record,
    what_is_read_is_spelled_so,
};
pub use read::read_store;
pub use record_fields::record_spec::StoreRecord;
pub use write::write_store;

// Re-exports for the crates above.
pub use json_read;
