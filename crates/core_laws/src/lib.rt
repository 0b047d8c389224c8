//! Laws of the core's histories. Each law is the contract of a function with an empty body.
//!
//! The main laws:
//!
//! - A submitted command has one outcome, and an outcome other than pending stays ([`a_command_has_one_outcome`]).
//! - A group is applied in the order of its ranks, and superseding changes no table ([`superseding_changes_no_table`]).
//! - A run that settles everything has the tables of one thread ([`the_tables_are_those_of_one_thread`]).
//! - If commands are pending, one of them can go on ([`what_waits_goes_on`]).
//! - The records of the two logs tell the pending and the discarded commands, the tables, and whether a Done is missing.
//! - After each event, and also between a change and its Done, the records stand for the history.
//! - No record that a legal history leaves is damage, and damage has one position.
//!
//! Each law is a short definition in `specs/`, and its proof stands in `proofs/`. Histories have the newest event first.
//!
//! Further laws: at most one command of a group is claimed, and a command that is applied is then the newest of its group. The
//! store fails at most sixteen times at a command. Before a purge all that came in must be settled for the law on one thread. A
//! log may start anew if at most 262,144 commands are pending.
#![tactic(auto)]

mod claim;
mod damage;
mod discard;
mod failure;
mod group;
mod log;
mod next;
mod outcome;
mod standing;
mod supersede;
mod thread;
mod trace;

pub use claim::the_first_candidate_is_the_least_claim;
pub use damage::{a_log_is_undamaged, damage_has_one_place};
pub use discard::discards_are_followed;
pub use failure::failures_are_counted;
pub use group::{a_group_is_applied_in_order, groups_are_those_of_payloads};
pub use log::{
    laid_logs_stand, no_record_of_a_history_is_damage, records_lead_to_the_history,
    records_lead_to_the_table, records_tell_the_history,
};
pub use next::what_waits_goes_on;
pub use outcome::{a_command_has_one_outcome, an_outcome_has_its_reason};
pub use standing::{
    a_log_begins_anew, records_go_on, records_stand_between_events, what_waits_is_told,
};
pub use supersede::superseding_changes_no_table;
pub use thread::{one_thread_is_a_thread, the_tables_are_those_of_one_thread};
pub use trace::{a_legal_history_has_a_trace, what_was_applied_was_submitted};
