//! The laws of the wire formats in `wire_spec`. Each law is the contract of a function that does nothing.
//!
//! - A command has exactly one answer.
//! - A change that it decodes to meets the rules of its kind: texts are UTF-8, JSON values nest within the payload's limit, tags
//!   ascend, and lengths of texts, values and lists fit 32 bits.
//! - Unknown keys and the order of members make no difference.
//! - Each refusal of a field has one meaning.
//! - Of equal edges and equal tags, one is kept.
//! - Of equal keys, the last value counts, at the first position.
//!
//! Each law is a definition of `specs/`, short enough to read aloud. Its proof is in `proofs/`.
#![tactic(auto)]

mod decode;
mod table;

pub use decode::{a_command_has_one_answer, a_decoded_change_is_lawful};
pub use table::{
    a_refusal_of_a_field_has_one_meaning, each_edge_stays_once, each_tag_stays_once_in_order,
    only_known_members_count, the_last_value_stands_at_the_first_place,
};
