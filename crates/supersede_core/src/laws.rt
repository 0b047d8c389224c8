//! Laws about two calls in sequence.
ghost use Rattle.supersede_core.specs.Waiting.{AddIsUndone, FailureIsCounted};

/// [`Pending::take`](crate::Pending::take) undoes what [`Pending::add`](crate::Pending::add) added.
pub fn an_add_is_undone()
    ensures { AddIsUndone }
{}

/// [`Pending::count_failure`](crate::Pending::count_failure) followed by [`Pending::unmark`](crate::Pending::unmark) is the step
/// of a failure.
pub fn a_failure_is_counted()
    ensures { FailureIsCounted }
{}
