//! Laws on which rows there are, and on their printed text.
ghost use Rattle.table_laws.specs.PrintLaws.{PrintedRowsAreJson};
ghost use Rattle.table_laws.specs.RowLaws.{FactsetsAreOfTheNewest, CatalogsAreOfTheNewest, ResourcesAreOfTheNewest, EdgesAreOfTheNewest};
ghost use Rattle.table_laws.specs.RowLaws.{FactsAreThoseOfTheHistory, ActiveFactsAreThoseOfTheHistory, ReportsAreThoseKept};

/// A row is listed exactly if the newest facts or the newest catalog of a node show it. Each resource and edge of that catalog
/// has a row, and nothing else has one.
pub fn rows_are_those_of_the_newest_commands()
    ensures factsets { FactsetsAreOfTheNewest }
    ensures catalogs { CatalogsAreOfTheNewest }
    ensures resources { ResourcesAreOfTheNewest }
    ensures edges { EdgesAreOfTheNewest }
{}

/// The rows of facts are the history's fact rows, in their order. The same holds for the rows of active nodes.
pub fn fact_rows_are_those_of_the_history()
    ensures all { FactsAreThoseOfTheHistory }
    ensures active { ActiveFactsAreThoseOfTheHistory }
{}

/// A row of a report is listed exactly if the report is kept.
pub fn rows_of_reports_are_those_kept()
    ensures { ReportsAreThoseKept }
{}

/// The rows of each entity are printed as a JSON text that spells them (RFC 8259), and so are the rows of its active nodes.
/// Factsets and reports nest at most 128 levels, other entities 127.
#[tactic(auto, using(crate::proofs::PrintedRows::printed_rows_are_json))]
pub fn printed_rows_are_json()
    ensures { PrintedRowsAreJson }
{}
