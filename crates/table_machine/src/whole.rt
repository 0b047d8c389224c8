//! The law on all steps of a history.
ghost use Rattle.table_machine.specs.Laws.{StepsMakeTheTable, OneThreadIsFollowed};

/// The steps of a history's events, from an empty table, make the table of the history.
pub fn the_steps_make_the_table()
    ensures trace { StepsMakeTheTable }
    ensures thread { OneThreadIsFollowed }
{}
