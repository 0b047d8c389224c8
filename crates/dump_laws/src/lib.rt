//! The laws of dumps. This crate has no code that runs.
//!
//! - [`a_short_text_is_a_stamp`], [`a_payload_has_its_change`], [`a_command_decodes_to_its_change`]: what a dump writes of a change
//!   decodes to the change.
//! - [`a_dump_is_a_spool`]: the bytes are a spool of the items.
//! - [`a_dump_leads_back`]: one thread with the same settings makes of it a history with the rows of the dumped table, but for the
//!   moments at which reports were received. [`the_sweeps_come_back`]: its table has the same greatest sweeps.
//!   [`a_dump_comes_back`]: a dump of that table is the same dump.
//!
//! Each public function has laws of `specs/` as its contract and an empty body.
#![tactic(auto)]

ghost use Rattle.dump_laws.specs.Laws.{CommandsDecodeToTheirChange, DumpsAreSpools, DumpsLeadBack, SweepsComeBack};
ghost use Rattle.dump_laws.specs.PayloadLaws.{PayloadsHaveTheirChange};
ghost use Rattle.dump_laws.specs.RowLaws.{DumpsAreTraces, TheRowsComeBack, DumpsComeBack};
ghost use Rattle.dump_laws.specs.StampLaws.{ShortTextsAreStamps, ShortTextsAreInUtc, NoFractionEndsWithZero};

/// The text of a moment is a stamp of it, wherever the moment has one. It ends with Z where it can, and never with a zero before
/// that.
pub fn a_short_text_is_a_stamp()
    ensures stamp { ShortTextsAreStamps }
    ensures utc { ShortTextsAreInUtc }
    ensures fraction { NoFractionEndsWithZero }
{}

/// The value of a payload stands for the change that it was made of.
pub fn a_payload_has_its_change()
    ensures { PayloadsHaveTheirChange }
{}

/// The history of a dump is a trace.
pub fn a_dump_makes_a_trace()
    ensures { DumpsAreTraces }
{}

/// The rows of that history are those of the dumped table, but for the moments at which reports were received.
pub fn the_rows_come_back()
    ensures { TheRowsComeBack }
{}

/// A dump of the table to which a dump leads is the same dump.
pub fn a_dump_comes_back()
    ensures { DumpsComeBack }
{}

/// The command of a change decodes to the change.
pub fn a_command_decodes_to_its_change()
    ensures { CommandsDecodeToTheirChange }
{}

/// The bytes of a dump are a spool of its items, where neither a payload nor the whole passes its limit.
pub fn a_dump_is_a_spool()
    ensures { DumpsAreSpools }
{}

/// One thread makes of a dump a history with the rows of the dumped table, but for the moments at which reports were received.
pub fn a_dump_leads_back()
    ensures { DumpsLeadBack }
{}

/// The table to which a dump leads has the greatest sweeps of the dumped table.
#[tactic(auto, using(crate::proofs::LeadsBack::sweeps_come_back))]
pub fn the_sweeps_come_back()
    ensures { SweepsComeBack }
{}
