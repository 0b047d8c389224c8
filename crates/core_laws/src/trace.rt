//! The trace of a history: what was applied and swept.
ghost use Rattle.core_laws.specs.Traces.{LegalHistoriesHaveTraces, AppliedCommandsWereSubmitted};

/// The trace of a legal history is lawful. Each change meets its rules, stamps express the moments, and the receipts count from 1
/// and are distinct.
pub fn a_legal_history_has_a_trace()
    ensures { LegalHistoriesHaveTraces }
{}

/// Each command in the trace was submitted under its receipt. Its change is what the payload decodes to, and its moment is the
/// one at which it was received, or none.
pub fn what_was_applied_was_submitted()
    ensures { AppliedCommandsWereSubmitted }
{}
