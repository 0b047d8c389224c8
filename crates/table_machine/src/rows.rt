//! Laws on the reports and the rows of the table.
ghost use Rattle.table_machine.specs.Laws.{ReportsAreStrictlySorted, ReportsAreThoseKept, NodesHaveTheNewestReport, FactRowsAreThoseOfTheNodes};
ghost use Rattle.table_machine.specs.Laws.{ActiveFactRowsAreThoseOfTheNodes, RowsAreThoseOfTheHistory};

/// The reports of a node are the kept ones, strictly sorted by timestamp, then by canonical text. The newest of them is the
/// newest kept report.
pub fn reports_are_those_kept()
    ensures sorted { ReportsAreStrictlySorted }
    ensures kept { ReportsAreThoseKept }
    ensures newest { NodesHaveTheNewestReport }
{}

/// The rows of facts are those of the nodes' newest facts. The active rows are those of nodes that aren't inactive.
pub fn fact_rows_are_those_of_the_nodes()
    ensures all { FactRowsAreThoseOfTheNodes }
    ensures active { ActiveFactRowsAreThoseOfTheNodes }
{}

/// For each entity the rows of the table are the rows of the history.
#[tactic(auto, using(crate::proofs::TableRows::rows_are_those_of_the_history))]
pub fn rows_are_those_of_the_history()
    ensures { RowsAreThoseOfTheHistory }
{}
