//! Laws of the definitions in `history_spec` and `spool_spec`. Each law is the contract of a function with an empty body.
//!
//! A definition in `history_spec` says how a value is computed; a law here says what that value is. The main laws:
//!
//! - All bytes have exactly one list of spool items and one end (`a_spool_has_one_reading`).
//! - One thread makes exactly one history of its items, and that history is a trace (`items_have_one_history`,
//!   `one_thread_makes_a_trace`).
//! - A life is what follows the node's last purge. The newest command has the greatest rank of its kind.
//! - The greatest deactivation, activity and expiry decide whether a node is inactive. The reports of the greatest ranks are
//!   kept.
//! - The rows of facts are strictly sorted and hold the newest facts of each node.
//! - The order of events between two purges has no effect (`the_order_between_purges_says_nothing`).
//!
//! `specs/` states each law in a short definition, and `proofs/` has its proof. `specs/Reading.antt` defines a reader of one
//! item, which the code of `spool_text` follows.
#![tactic(auto)]

mod greatest;
mod newest;
mod order;
mod printed;
mod reports;
mod rows;
mod spool;
mod states;
mod thread;
mod traces;

pub use greatest::{the_greatest_moments_are_of_sweeps, the_greatest_stamps_are_of_commands};
pub use newest::{
    none_is_newest_where_none_is_of_the_kind, ranks_are_by_stamp_and_receipt,
    the_newest_is_not_outranked,
};
pub use order::{permutations_reorder, the_order_between_purges_says_nothing};
pub use printed::{a_full_text_tells_its_moment, full_texts_are_printed};
pub use reports::{a_limit_keeps_the_greatest_ranks, without_a_limit_each_text_is_kept};
pub use rows::{
    active_rows_are_of_active_nodes, rows_are_strictly_sorted, rows_are_the_newest_facts,
};
pub use spool::{
    a_first_line_is_short, a_spool_has_items, a_spool_has_one_reading, an_item_text_is_read,
    the_first_moment_has_a_stamp, what_is_read_is_an_item_text,
};
pub use states::{
    a_node_expired_where_a_sweep_was_later, a_node_is_deactivated_where_no_activity_is_later,
    a_node_is_inactive_where_it_is_deactivated_or_expired,
};
pub use thread::{a_thread_has_one_history, items_have_one_history, one_thread_makes_a_trace};
pub use traces::{
    a_life_follows_the_last_purge, a_trace_has_distinct_receipts_and_names,
    nodes_are_those_with_a_life,
};
