//! Patterns of texts as a trait: an implementation of `Patterns` defines what `~` means in a query.
//!
//! Contracts see of an implementation:
//! - a relation between patterns and the texts that they match, which no call changes,
//! - the number of refused patterns, which never falls,
//! - the patterns read and the texts tried so far, in order, if they are known.
//!
//! The main guarantee: `matches` and `matches_each` answer the relation for the compiled pattern, and a pattern is refused only if
//! the counter rose.
//!
//! `keys` gives the keys under which texts are hashed. The reader of patterns is made outside, where random keys can be drawn.
//!
//! Each of `matches_each`'s texts is tried once, in order, or a prefix of them without memory (`course`). No clause speaks of
//! `keys`.
#![tactic(auto)]

mod keys;
mod patterns;

pub use keys::Keys;
pub use patterns::{PatternFault, Patterns};

// The words of lower crates that the modules above use.
pub use fleet_ports;
