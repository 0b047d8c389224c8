//! Keeps what the tables have of one node: its newest commands, its activity and its kept reports.
//!
//! [`Node`] is what is kept. [`Node::apply`] applies a command to it, [`Node::retain`] drops old reports, and [`Node::row`] and
//! [`Node::own_row`] make its rows. [`Node::span`] finds the sought rows among its rows. Lists of nodes stand by certname:
//! [`place_of`] and [`node_of_row`] find a node in such a list. Entities and columns follow PuppetDB's query API v4.
//!
//! The main guarantee: contracts see a node as the node of `table_machine` (`node_seen` in `specs/Seen.antt`). A command, a sweep
//! or a mark makes exactly the node of the machine's step, and the rows are exactly the node's rows.
//!
//! What is kept besides that value stands in `specs/Kept.antt`: hashes and orders, each present or absent and correct if present,
//! and reports in their order. In `specs/`, too:
//!
//! - `Counted.antt`: numbers of rows by entity. Each node stores the numbers of the rows before it.
//! - `Computed.antt`: what is computed of a change before it is applied, and the room for its report.
//! - `Places.antt` and `ReportPlaces.antt`: places of nodes and of reports. `Rows.antt`: rows by index.
//! - `Wanted.antt`: rows by the names that they show, `Spans.antt` their places, and `Runs.antt` those within one node.
//! - `Owned.antt`: the commands of a node name it. `Packed.antt`: a report's lists as texts.
//!
//! A row shows hashes, and the orders of facts, resources and edges decide its index. Both depend only on the command and are
//! stored in parts (`FactsShown`, `CatalogShown`). `shown_by` computes all parts of a change, and `needed_by` only packs a report.
//! `prepare_nodes` computes the parts of an entity for all nodes of a list, and `prepare_node` for one of them. Otherwise a row's
//! parts are computed with it.
//!
//! A report's lists are kept as their compact texts (`PackedReport`), since they are most of what is kept, and a tree of them takes
//! three times as much. Rows of `reports` unpack one report each; rows of `nodes` need no list. Reports of a node stand by
//! timestamp, then by canonical text. No text is kept: a report's place is found by texts only among those with its timestamp.
//! Each report has its own allocation, so inserting a report moves 8 bytes for each later one.
//!
//! Memory is taken only by calls that are handed an allocator. `apply` uses the room that its caller made.
#![tactic(auto)]

mod apply;
mod computed;
mod counts;
mod kept;
mod lists;
mod marks;
mod node;
mod packed;
mod places;
mod preparing;
mod reports;
mod rows;
mod runs;
mod shown;
mod snapshot;
mod spans;
mod times;
mod wanted;

pub use apply::later;
pub use computed::{Derived, ReportShown, needed_by, room_for_reports, shown_by};
pub use counts::Counts;
pub use kept::{Deactivation, Expiration, Factset, HeldReport, NodeCatalog, Report};
pub use lists::{insert_in_room, move_into, room_for_more};
pub use marks::mark_in;
pub use node::Node;
pub use packed::{PackedLists, PackedReport};
pub use places::{count_from, node_of_row, place_of};
pub use preparing::{prepare_node, prepare_nodes};
pub use shown::{CatalogShown, FactsShown, ResourcesShown};
pub use snapshot::{push_commands, push_marks, reports_by_rank};
pub use wanted::{Span, Wanted, WantedResource};
