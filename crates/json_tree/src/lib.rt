//! JSON values (RFC 8259), exact to the byte. Payloads, cells and rows are made of them.
//!
//! A [`Json`] is null, a Bool, a [`Number`] by its spelling, a [`Text`], the [`Items`] of an array, or the ordered [`Members`] of
//! an object. Contracts see it as the value of `text_spec` that `json_of` gives (specs/Tree.antt). They see `Text`, `Bytes` and
//! `Number` as lists of bytes, `Items` as a list of values, and `Members` as a list of pairs.
//!
//! Guarantees of the contracts:
//! - [`write_compact`] gives exactly the compact text of a value.
//! - [`canonical`] gives exactly the text with the members of each object sorted by the bytes of their keys.
//! - [`Json::copy`] gives an equal value.
//! - A `Number` is exactly a number of the grammar of section 6.
//! - Every value has at most 127 levels, and the keys of an object are distinct. `Items` and `Members` keep this by themselves: a
//!   value inside them has at most 126 levels.
//!
//! The only error is lack of memory. `new`, `len`, `pair`, `as_slice`, `take`, `levels` and `from_text` allocate nothing.
//!
//! Don't build a large object by [`Members::set`], which compares the key with all members. A reader collects the pairs in a
//! list; [`settle`] and [`Members::from_pairs`] then make the object in O(n log n) steps.
//!
//! Calls recurse into a value level by level, and so does its drop: at most 127 levels deep.
//!
//! Promises and costs of further calls:
//! - `append_compact`, `append_canonical` and the like append those texts (`text`). What stood before stays, also without
//!   memory (`appends`). [`canonical`] sorts references and copies no key.
//! - [`order`], [`same`], `Number::scaled` and `Number::compare` are exactly those of `text_spec`, and take no memory. `order`
//!   is linear if both objects have sorted keys, otherwise quadratic. `same` is linear if keys stand at equal positions.
//! - `set`, `take`, [`settle`] and `from_pairs` keep the order of members.
#![tactic(auto)]

mod canonical_text;
mod copy;
mod depth;
mod in_key_order;
mod limits;
mod number;
mod parts;
mod places;
mod sameness;
mod scaled;
mod settled;
mod text;
mod total_order;
mod tree;
mod write;

pub use canonical_text::{
    append_canonical, append_canonical_items, append_canonical_members, canonical,
};
pub use depth::levels;
pub use limits::MOST_PAYLOAD;
pub use number::{Number, NumberState};
pub use sameness::same;
pub use settled::settle;
pub use text::{Bytes, Text};
pub use total_order::order;
pub use tree::{Items, Json, Members};
pub use write::{append_compact, append_quoted, write_compact};
