//! Reads PuppetDB's wire format "replace catalog" 9.
//!
//! [`catalog`] follows the table of the format exactly. It gives the change, or the first refusal in the order of the table. The
//! elements of a list are checked when the list's field is. Contracts see an object as the list of its members, and cite the
//! table as `object_change`. Lack of memory is the one error outside the table.
//!
//! Values are moved, and no text of a payload is copied. Tags are sorted in place. Usually, sorted marks of the names show that
//! resources and edges are distinct. If two marks are equal, sets of the names decide. The sets are ordered, not hashed, so n
//! elements take O(n log n) steps, whatever their texts.
//!
//! [`catalog`] requires an object whose compact text has fewer than 2^32 bytes. `are_resources_apart` and `are_edges_apart`
//! answer true only if no name stands twice. False says nothing, since different names may share a mark.
#![tactic(auto)]

mod change;
mod distinct;
mod edge;
mod edges;
mod marks;
mod names;
mod resource;
mod resources;
mod tags;

pub use change::catalog;
pub use distinct::edge_key;
pub use edge::relationship_name;
pub use marks::{are_edges_apart, are_resources_apart};
pub use wire_fields::WireFault;

// The words of lower crates that the modules above use.
pub use wire_fields;
pub use wire_fields::fleet_rows;
