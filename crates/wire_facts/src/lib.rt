//! Reads PuppetDB's wire format "replace facts" 5.
//!
//! [`facts`] follows the table of the format exactly. It gives the change, or the first refusal in the order of the table.
//! Contracts see an object as the list of its members, and cite the table as `object_change`.
#![tactic(auto)]

mod facts_change;

pub use facts_change::facts;
