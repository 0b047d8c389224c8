//! Says which records a store's checkpoint is written as, and proves that each of them has a spelling. It has no code that runs.
//!
//! Two main laws:
//!
//! - [`a_list_is_written_as_the_checkpoint`]: the records made from the tables' list are the store's checkpoint of the history.
//! - [`lawful_tables_are_writable`]: each record of the list of lawful tables has a spelling. Tables that records lead to are
//!   lawful, whatever the logs held (`specs/Lawful.antt`).
#![tactic(auto)]

ghost use Rattle.compact_laws.specs.Laws.{ListsAreWrittenAsTheCheckpoint};
ghost use Rattle.compact_laws.specs.Lawful.{EmptyTablesAreLawful, CommandsKeepTablesLawful, SweepsKeepTablesLawful};
ghost use Rattle.compact_laws.specs.Lawful.{RecordsLeadToLawfulTables, LawfulTablesAreWritable};

/// The records made from the checkpoint list of a history are the checkpoint of the store's log.
pub fn a_list_is_written_as_the_checkpoint()
    ensures { ListsAreWrittenAsTheCheckpoint }
{}

/// Empty tables are lawful.
#[tactic(auto, using(crate::proofs::LawfulTables::empty_tables_are_lawful))]
pub fn empty_tables_are_lawful()
    ensures { EmptyTablesAreLawful }
{}

/// Lawful tables stay lawful when a lawful command is applied.
#[tactic(auto, using(crate::proofs::LawfulTables::commands_keep_tables_lawful))]
pub fn commands_keep_tables_lawful()
    ensures { CommandsKeepTablesLawful }
{}

/// Lawful tables stay lawful under a sweep at a moment that a stamp can express.
#[tactic(auto, using(crate::proofs::LawfulTables::sweeps_keep_tables_lawful))]
pub fn sweeps_keep_tables_lawful()
    ensures { SweepsKeepTablesLawful }
{}

/// The tables that records lead to are lawful, whatever history the records stand for, or none.
#[tactic(auto, using(crate::proofs::LawfulTables::records_lead_to_lawful_tables))]
pub fn records_lead_to_lawful_tables()
    ensures { RecordsLeadToLawfulTables }
{}

/// Each mark and each command in the list of lawful tables has a spelling.
#[tactic(auto, using(crate::proofs::LawfulTables::lawful_tables_are_writable))]
pub fn lawful_tables_are_writable()
    ensures { LawfulTablesAreWritable }
{}
