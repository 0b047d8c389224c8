//! Reads PuppetDB's wire format "store report" 8.
//!
//! [`report`] follows the table of the format exactly. It gives the change, or the first refusal in the order of the table.
//! Resources, logs and metrics are checked and then moved as received, with unknown keys, the order of members and the spelling
//! of numbers and stamps. Contracts see an object as the list of its members, and cite the table as `object_change`.
//!
//! No text of a payload is copied, and nothing is allocated. Each list element is checked in place, with one search of its
//! members per field.
//!
//! [`report`] requires an object whose compact text has fewer than 2^32 bytes. It never answers missing memory
//! (`never_memory`).
#![tactic(auto)]

mod change;
mod event;
mod objects;
mod resource;

pub use change::report;
pub use resource::check_resource;
pub use wire_fields::WireFault;
