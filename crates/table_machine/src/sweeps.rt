//! Laws on the empty table and on the effect of a sweep.
ghost use Rattle.table_machine.specs.Laws.{BeginsEmpty, SweepsAreFollowed, ExpiriesAreFollowed, PurgesAreFollowed, RetentionsAreFollowed};

/// Before any event the table is empty.
pub fn the_table_begins_empty()
    ensures { BeginsEmpty }
{}

/// Applying a sweep to a history's table gives the table of the history with the sweep. This also holds for a sweep that only
/// expires nodes, only purges or only removes reports.
pub fn a_sweep_is_followed()
    ensures whole { SweepsAreFollowed }
    ensures expiry { ExpiriesAreFollowed }
    ensures purge { PurgesAreFollowed }
    ensures reports { RetentionsAreFollowed }
{}
