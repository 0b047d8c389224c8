//! Superseding, which leaves out the change of an older command.
ghost use Rattle.core_laws.specs.Superseding.{SupersedingChangesNoTable, SupersedingChangesNoRow};

/// Suppose that a superseded command decodes to a change. Applying it at that point instead gives the same table and the same
/// rows of each entity, then and after any further events.
pub fn superseding_changes_no_table()
    ensures table { SupersedingChangesNoTable }
    ensures rows { SupersedingChangesNoRow }
{}
