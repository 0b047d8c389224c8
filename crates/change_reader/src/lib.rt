//! Decodes the changes of the store's records.
//!
//! [`take_change`] reads the change at the front of the bytes, and returns it with the bytes after it, or None if they begin with
//! no such change. A change that is read meets every rule of its fields: the wire format accepts a report's lists, and edges and
//! names of resources are distinct.
//!
//! `specs/Changes.antt` reads a change from left to right. `proofs/Changes.antt` proves that it agrees with the encoding: what is
//! read was encoded that way, and whatever is encoded can be read.
//!
//! Names of resources and edges cost n log n steps, tags one pass.
#![tactic(auto)]

mod catalog;
mod change;
mod distinct;
mod report;
mod resource;
mod short;

pub use change::take_change;
