//! Laws on the rows of facts.
ghost use Rattle.history_laws.specs.RowLaws.{RowsAreStrictlySorted, RowsAreTheNewestFacts, ActiveRowsAreOfActiveNodes, ActiveRowsStandInOrder};

/// If all facts have distinct names, rows are strictly sorted by certname, then by name.
pub fn rows_are_strictly_sorted()
    ensures { RowsAreStrictlySorted }
{}

/// A row is listed exactly if the newest facts of its node have its name, its value and its environment.
pub fn rows_are_the_newest_facts()
    ensures { RowsAreTheNewestFacts }
{}

/// The active rows are the rows of nodes that are neither deactivated nor expired, in the same order.
pub fn active_rows_are_of_active_nodes()
    ensures nodes { ActiveRowsAreOfActiveNodes }
    ensures order { ActiveRowsStandInOrder }
{}
