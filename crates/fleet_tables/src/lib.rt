//! Stores the tables that stand for a history, and reads their rows.
//!
//! [`Tables`] is the state. [`Tables::reserve`] makes a [`Room`] for a change, [`Tables::apply`] applies the change in that room
//! without taking memory, and [`Tables::row`] reads a row by its index. [`Prepared`] is a change whose hashes and orders were
//! computed beforehand, by any thread. Entities and columns follow PuppetDB's query API v4.
//!
//! The main guarantee: tables that stand for a history have exactly its rows, each at its index. After a command or a sweep they
//! stand for the history with it. `snapshot` lists the checkpoint of that history, and `from_list` makes the tables again from
//! the list, even if more commands follow the checkpoint.
//!
//! Contracts see `Tables` as the table of `table_machine`, and each step as the machine's step. They see `Room` as the table and
//! the change that it was made for, and `Prepared` as its change. In `specs/`:
//!
//! - `Stands.antt`: the history that tables stand for.
//! - `Asked.antt`: look-ups by certname. `Active.antt`: the rows of active nodes.
//! - `Listed.antt`: the lists that `from_list` takes.
//! - `Groups.antt`: how nodes are grouped. `Rooms.antt`: the memory that a change needs.
//!
//! What is kept of one node stands in `kept_nodes`, with the words for rows by index, for the sought rows and for their places.
//!
//! Memory is taken only by `Prepared::of`, the two calls that make room, the three that prepare, `row`, `seek`, `snapshot`,
//! `node_lists`, `from_list` and `mark`. The stored data is in `State`, which holds no allocator except those of its lists; only
//! these calls hand it one.
//!
//! A row shows hashes and has its place by an order (`kept_nodes`). `Prepared::of` computes both without the tables.
//! `reserve_prepared` computes nothing, and `reserve` only packs a report. `prepare` computes them for all nodes, `prepare_node`
//! for one. Otherwise `row` computes what its row needs.
//!
//! Nodes are stored in groups of neighbours (`Group`). `reserve` splits a group of 256 nodes or more before a node in it is added
//! or changed. So a command needs one binary search, moves and recounts the nodes of one group at most, and adjusts the total. A
//! purge drops empty groups but doesn't merge small ones.
//!
//! A row look-up halves among the first groups, of which `State` knows how many rows stand before each. From the last of them it
//! counts group by group, then it searches the row's group. `prepare` makes all groups known. A change cuts those behind its group,
//! and a purge, a sweep of reports or a mark cuts all.
//!
//! The room for a new node has a list for twice the number of all nodes, at 8 bytes each, since no contract says how full the
//! node's group is.
//!
//! Look-ups read no row and take no memory but for the list of `seek`. A certname is found by two binary searches, and its rows
//! are neighbours. Within a node, the orders of its facts and resources serve as the index.
//!
//! Clauses and costs of the calls:
//! - `reserve`, `reserve_prepared` and `into_prepared` leave the tables (`same`). Without memory `reserve_prepared` hands the
//!   change back. `into_prepared` takes the change out of an unused room.
//! - `apply`, `expire`, `purge` and `retain`: exactly the machine's step (`step`), and the history with the event (`stands`).
//!   The three sweeps make one pass over nodes and reports. That these four take no memory is read off the code.
//! - `row` and `count`: exact, for the table and for each history (`row`, `count`, `stands`). `newest`, `inactive`: one binary
//!   search.
//! - `of_node`, `of_fact`, `of_resource`, `fact_place`, `seek`: the places of exactly the rows that a filter of all rows finds.
//!   Those without a certname look into each node.
//! - `active_count`: the number of rows whose node is active. It asks each node. `stand_by_certname`: the order of nodes, as a law.
//! - `node_lists` hands out the nodes by reference, and `expiry` and `retention` the greatest sweeps: exact.
//! - `snapshot` copies each kept change. `from_list` takes each list of lawful changes (`value`, `stands`, `further`).
//! - `set_sweeps` and `mark` are the first steps of `from_list`; afterwards tables may stand for no history. Without memory
//!   `mark` leaves the tables. At 2^62 nodes it refuses known nodes too.
#![tactic(auto)]

mod active;
mod group;
mod groups;
mod laws;
mod listed;
mod lookups;
mod marks;
mod preparing;
mod room;
mod seek;
mod snapshot;
mod spans;
mod state;
mod steps;
mod stored;
mod tables;

pub use lookups::Places;
pub use room::{Prepared, Room};
pub use steps::Steps;
pub use tables::Tables;

// Re-exports for the crates above.
pub use fleet_rows;
pub use fleet_rows::stamp_time;
pub use kept_nodes::{Span, Wanted, WantedResource};
