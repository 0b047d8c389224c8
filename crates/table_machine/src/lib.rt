//! Defines the state of the tables as a machine over the events of a history, and proves that this state agrees with the
//! definitions of `history_spec` after every event. This crate has no code that runs; `fleet_tables` follows the steps of the
//! machine.
//!
//! - `specs/Table.antt`: what is kept of a history. For each node these are the newest commands, the greatest activity and the
//!   kept reports in order.
//! - `specs/Node.antt`: what a kept node tells.
//! - `specs/Steps.antt`: the effect of a command and of a sweep.
//! - `specs/Rows.antt`: the rows of the table.
//!
//! The main guarantee: the steps of the events, from an empty table, make the table of the history ([`the_steps_make_the_table`]),
//! and its rows are those of the history ([`rows_are_those_of_the_history`]).
//!
//! If the number of reports is limited, each applied report is inserted, and then the one of least rank is removed if there is
//! one too many. So one step for each event keeps the limit of the whole history. The machine finds a report by timestamp and
//! canonical text, the definitions by its text alone. Both agree because the columns of a report that meets its rules are JSON.
//!
//! Each public function has laws of `specs/Laws.antt` as its contract and an empty body.
#![tactic(auto)]

mod commands;
mod nodes;
mod rows;
mod sweeps;
mod whole;

pub use commands::{
    a_command_is_followed, a_report_has_json_columns, a_superseded_command_says_nothing,
};
pub use nodes::{
    a_node_has_the_newest, a_node_is_found_where_it_has_a_life, a_node_tells_what_its_life_does,
};
pub use rows::{
    fact_rows_are_those_of_the_nodes, reports_are_those_kept, rows_are_those_of_the_history,
};
pub use sweeps::{a_sweep_is_followed, the_table_begins_empty};
pub use whole::the_steps_make_the_table;

// Re-exports for the crates above.
pub use table_spec::{fleet_rows, json_tree, stamp_time};
