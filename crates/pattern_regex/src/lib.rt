//! Patterns in the syntax of Rust's `regex` crate.
//!
//! `RegexPatterns` is the implementation of `Patterns` that the program uses. A text matches if the pattern matches somewhere in
//! it. The crate `regex` defines what a pattern means (`specs/Regexes.antt`). If that crate answers an error other than lack of
//! memory, the pattern is refused and the refusal counter rises. The keys are fixed, unless the caller passes others.
//!
//! Contracts don't know which texts were read or tried. `matches` takes the memory of one matcher, and so does `matches_each`
//! for all of its texts.
#![tactic(auto)]

mod patterns;

pub use patterns::{Compiled, RegexPatterns};

// The keys of hashes, for callers that make a reader.
pub use pattern_port::Keys;
