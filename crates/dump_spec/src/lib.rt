//! Defines dumps: the spool that a table is written as. This crate has no code that runs.
//!
//! A dump holds of each node what its table keeps: the newest facts, catalog, expiration and deactivation, and its reports. The
//! greatest sweeps of expiry and of reports stand behind them. `specs/Dumps.antt` defines the items and the bytes,
//! `specs/Payloads.antt` the payload of a change, `specs/Stamps.antt` the stamp of a moment.
//!
//! Each public function has laws of `specs/Laws.antt` as its contract and an empty body. `proofs/DumpExamples.antt` shows the fields
//! of some changes and the items of a table.
#![tactic(auto)]

ghost use Rattle.dump_spec.specs.Laws.{EmptyTablesHaveEmptyDumps, DumpsDoNotTellReceipts};

/// Nothing is dumped of a table without nodes and sweeps.
#[tactic(auto, using(crate::proofs::DumpTexts::empty_tables_have_empty_dumps))]
pub fn an_empty_table_has_an_empty_dump()
    ensures { EmptyTablesHaveEmptyDumps }
{}

/// The bytes of a dump don't tell when its commands were received.
#[tactic(auto, using(crate::proofs::DumpTexts::dumps_do_not_tell_receipts))]
pub fn a_dump_does_not_tell_receipts()
    ensures { DumpsDoNotTellReceipts }
{}
