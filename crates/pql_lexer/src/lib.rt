//! Splits PQL into tokens: returns the longest token that bytes begin with.
//!
//! [`next_token`] returns the token and its length in bytes, or None if no token begins there. Its contract promises the relation
//! between bytes and tokens of `pql_spec` (`IsLongest`), and says nothing of the algorithm.
//!
//! The first byte decides the kind: a letter begins a word, a digit or `-` a number, a quote a text, and any other byte a mark or
//! nothing. The longest token of that kind is taken. Each kind has a file here and a function in `specs/Fronts.antt`, which says
//! how far its code reads; `proofs/` shows that no longer prefix spells a token. The cost is linear in the token, or in the rest
//! of the text if a quote isn't closed.
#![tactic(auto)]

mod lexer;
mod mark;
mod number;
mod quoted;
mod word;

pub use lexer::next_token;
