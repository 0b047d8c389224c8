//! Encodes and decodes the records of the queue's log.
//!
//! A record is the body of one frame of the log file. [`write_queue`] returns its only encoding, the `queue_text` of
//! `record_spec`. [`read_queue`] returns the record that all of the bytes encode, or None. It returns None for an unknown number
//! of a tag, kind, refusal, field or cause. It also returns None for a moment without a stamp, 16 or more attempts, a length past
//! the end, or bytes after the record.
//!
//! The contracts promise that each record has exactly one encoding and that no two records share one. `specs/Reading.antt` reads
//! a record from left to right, and the laws ([`what_is_read_is_spelled_so`] and the others) tie it to the encoding.
//!
//! A payload is copied once into a frame, whose memory is taken at once, and once out of it. [`submit_bytes`], [`held_bytes`] and
//! [`dead_bytes`] encode the record of a borrowed command. [`done_bytes`] and [`fail_bytes`] take no memory.
//!
//! Of [`read_queue`], `exact` and `found` say that a record is returned exactly if the bytes spell it. Reading takes one pass.
#![tactic(auto)]

mod command;
mod laws;
mod read;
mod refused;
mod small;
mod write;

pub use laws::{
    a_spelling_has_one_record, a_spelling_is_read, other_bytes_are_no_record,
    what_is_read_is_spelled_so,
};
pub use read::read_queue;
pub use record_fields::record_spec::QueueRecord;
pub use small::{done_bytes, fail_bytes};
pub use write::{dead_bytes, held_bytes, submit_bytes, write_queue};

// Re-exports for the crates above.
pub use record_fields::{fleet_rows, json_tree, record_spec, stamp_time};
