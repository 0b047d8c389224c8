//! Incoming connections in memory, for tests.
//!
//! A [`MemoryFront`] hands out one link for each of its texts, in order, and contracts know all of it. A link is a `MemorySource`
//! of the text and a `MemorySink`, neither with a listed failure. Calls of `listen` and `next` are numbered together from 1. Such
//! a call fails exactly if its number is listed. The front keeps the port of the last successful `listen`, for tests to read.
//!
//! Contracts see every link that was given back, in a list that exists in proofs alone. The front itself keeps a link if memory
//! allows, and `lost` counts those that it couldn't keep.
#![tactic(auto)]

mod front;

pub use front::MemoryFront;

// The words of lower crates that the modules above use.
pub use front_port;
pub use port_memory;
