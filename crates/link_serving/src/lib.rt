//! Serves connections as a front hands them out, over any [`Inbox`](http_routes::Inbox).
//!
//! [`serve_front`] takes the connections of a [`Front`](front_port::Front) one after the other, answers the requests of each, and
//! gives it back. It returns a [`ServeEnd`]. A connection that fails ends alone: the next one is served over the same inbox and
//! patterns.
//!
//! The contract promises what was served on which connection and how that changed the inbox (`specs/Serving.antt`). The answers
//! are those of `routes_spec`.
//!
//! What the contract of [`serve_front`] promises:
//! - Each connection is served as `serve_link` says, in order, and given back (`served`, `stands`). At Done there were as many
//!   as asked for, or none is left.
//! - The port stays the same (`listens`). FrontFault is counted by the front (`cause`).
#![tactic(auto)]

mod end;
mod front;

pub use end::ServeEnd;
pub use front::serve_front;

// Re-exports for the crates above.
pub use http_routes::{Inbox, Submitted};
