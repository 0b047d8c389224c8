//! The service's own types: commands and their ranks, changes, refusals, and the rows of tables.
//!
//! They are plain data, and the definitions of wire formats and histories use them directly. Contracts see a text as its bytes, a
//! moment as a number of nanoseconds since the epoch, and lists as lists. Some functions have rules of their own:
//!
//! - [`Rank::order`]: of two commands of one node and kind, the one with the greater producer timestamp wins. If the timestamps
//!   are equal, the later receipt wins.
//! - [`Entity::columns`] gives the columns of an entity's rows.
//! - [`Cell::order`] is the total order of cells.
//!
//! The fields of the changes are those of PuppetDB's wire formats "replace facts" 5, "replace catalog" 9, "store report" 8,
//! "deactivate node" 3 and "configure expiration" 1.
//!
//! Guarantees of the contracts:
//! - [`Cell::order`]: null comes first, then moments by time, then values by the order of `json_tree`.
//! - The copies of changes and of their parts are equal values.
//! - [`sha1_hex`] returns the digits of the digest of FIPS 180-4, in lower case.
#![tactic(auto)]

mod applied;
mod catalog;
mod change;
mod column;
mod command;
mod copy;
mod digest;
mod limits;
mod list;
mod rank;
mod refusal;
mod row;
mod settings;
mod shared;
mod store;
mod submitted;

pub use applied::Applied;
pub use catalog::{CatalogChange, Edge, Relationship, Resource, ResourceName};
pub use change::{Change, DeactivateChange, ExpirationChange, FactsChange, ReportChange};
pub use column::Column;
pub use command::{Command, Group, Kind};
pub use copy::{copy_catalog, copy_deactivation, copy_expiration, copy_facts, copy_report};
pub use digest::sha1_hex;
pub use limits::{MOST_PENDING, MOST_PENDING_BYTES, MOST_WORKERS};
pub use list::{Edges, Names, Resources};
pub use rank::Rank;
pub use refusal::{Cause, Field, Place, Refusal};
pub use row::{Cell, Cells, Entity, Row};
pub use settings::{Kinds, Ttls};
pub use shared::Shared;
pub use store::{Kepts, Mark, Marks, StoreList};
pub use submitted::Submitted;

// The words of lower crates that the modules above use.
pub use json_tree;
pub use stamp_time;
