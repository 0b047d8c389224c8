//! Reads PuppetDB's wire formats "deactivate node" 3 and "configure expiration" 1.
//!
//! [`deactivate`] and [`expiration`] follow the tables of the formats exactly. They give the change, or the first refusal in the
//! order of the table. Contracts see an object as the list of its members, and cite the table as `object_change`.
#![tactic(auto)]

mod deactivation;
mod expiry;

pub use deactivation::deactivate;
pub use expiry::expiration;
