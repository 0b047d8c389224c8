//! The laws of the definitions in `text_spec`. Each law is the contract of a function that does nothing:
//!
//! - a number has one value;
//! - the order of values is total;
//! - the canonical text ignores the order of members and nothing else;
//! - no text that spells a value is shorter than its compact text;
//! - `same` is an equivalence on values with distinct keys;
//! - the reader accepts exactly the stamps (RFC 3339), and among them every printed one of the years 1 to 9900.
//!
//! Each law is a definition of `specs/`, short enough to read aloud. Its proof is in `proofs/`.
//!
//! Two values are equal in the order exactly if their canonical texts are equal. A printed stamp is a stamp of the moment cut
//! to its digits.
#![tactic(auto)]

mod canonical;
mod number;
mod order;
mod same;
mod shortest;
mod stamp;

pub use canonical::{
    an_arranged_value_is_reordered, an_arranged_value_stays, arranged_members_ascend,
    equal_in_order_is_one_canonical_text, one_canonical_text_is_same,
    the_canonical_text_forgets_no_more, the_canonical_text_forgets_the_order_of_members,
    the_canonical_text_spells_the_arranged_value,
};
pub use number::{
    a_number_has_at_most_one_value, a_number_text_has_one_reading, numbers_compare_by_value,
    scaled_is_the_value,
};
pub use order::{equal_in_order_is_alike_arranged, the_order_follows_compare, the_order_is_total};
pub use same::{alike_arranged_is_same, same_is_an_equivalence, same_values_may_differ};
pub use shortest::the_compact_text_is_a_shortest;
pub use stamp::{
    a_printed_stamp_is_a_stamp, a_printed_stamp_tells_the_cut_moment, a_stamp_names_one_moment,
    stamps_are_read,
};
