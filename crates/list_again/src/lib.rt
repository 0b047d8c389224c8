//! Tells nodes again: which histories lead to a given table. This crate has no code that runs.
//!
//! A table keeps of each node its newest commands and its reports. Told one node after the other, these commands make a history
//! that leads to the same table. Receipts don't matter: any commands of the same changes do. `specs/Told.antt` defines what is
//! told, `specs/Rules.antt` its rules, `specs/Whole.antt` the rules of tables.
//!
//! A node's greatest activity may be the stamp of a report that was swept away. Then an empty report of that stamp is told too,
//! which the sweep of reports takes again.
//!
//! Each public function has laws of `specs/Laws.antt` as its contract and an empty body.
#![tactic(auto)]

ghost use Rattle.list_again.specs.Laws.{ToldNodesMakeTheTable, TablesAreToldAgain, ListsAreCheckpointsAgain, TablesAreWhole};

/// Nodes that are told by the rules make the table of what was told.
#[tactic(auto, using(crate::proofs::ToldTables::told_nodes_make_the_table))]
pub fn told_nodes_make_the_table()
    ensures { ToldNodesMakeTheTable }
{}

/// Every table that meets the rules is the table of a history: of the one that tells its nodes again. Its list is the checkpoint
/// of that history.
#[tactic(auto, using(crate::proofs::Again::tables_are_told_again, crate::proofs::Again::lists_are_checkpoints_again))]
pub fn a_whole_table_is_told_again()
    ensures table { TablesAreToldAgain }
    ensures checkpoint { ListsAreCheckpointsAgain }
{}

/// The table of each history meets the rules.
pub fn the_table_of_a_history_is_whole()
    ensures { TablesAreWhole }
{}
