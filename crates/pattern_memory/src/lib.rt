//! A reader of patterns in memory, for tests. It records every call that it receives.
//!
//! A text matches a pattern of [`MemoryPatterns`] if it begins with the pattern's text. A pattern that begins with `(` is
//! refused.
//!
//! Contracts see the whole course in order: the texts read, each with whether it was refused, and the texts tried, each with its
//! pattern. `notes` gives it if memory sufficed, and `lost` counts the acts that couldn't be noted.
#![tactic(auto)]

mod course;
mod mark;
mod note;
mod patterns;

pub use note::Note;
pub use patterns::{Compiled, MemoryPatterns};

// The words of lower crates that the modules above use.
pub use pattern_port;
