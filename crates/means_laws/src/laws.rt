//! The laws of the meaning of queries.
ghost use Rattle.means_laws.specs.Laws.{PlacesSayNothing, ActiveRowsAreSelected, RowsArePrintedAsOfTables, SumsPrintTheirValue, SumsPrintNumbers};
ghost use Rattle.means_laws.specs.Laws.{TablesCanBePrinted, RowsCanBePrinted, PagesCanBePrinted};

/// Queries that differ only in their places have the same answer.
#[tactic(auto, using(crate::proofs::BareMeans::places_say_nothing))]
pub fn places_say_nothing()
    ensures { PlacesSayNothing }
{}

/// A query of an entity without a filter selects the rows of nodes that are neither deactivated nor expired.
#[tactic(auto, using(crate::proofs::ActiveRows::active_rows_are_selected))]
pub fn active_rows_are_selected()
    ensures { ActiveRowsAreSelected }
{}

/// An answer with all columns of an entity is printed as the entity's table is.
pub fn rows_are_printed_as_those_of_tables()
    ensures { RowsArePrintedAsOfTables }
{}

/// The text of a sum between -10^19 and 10^19 is a number with the sum's value.
#[tactic(auto, using(crate::proofs::SumLaws::sums_print_their_value))]
pub fn sums_print_their_value()
    ensures { SumsPrintTheirValue }
{}

/// The text of a sum in 128 bits is a number.
#[tactic(auto, using(crate::proofs::SumLaws::sums_print_numbers))]
pub fn sums_print_numbers()
    ensures { SumsPrintNumbers }
{}

/// Each moment in the tables of a history can be printed, and so can each moment in the rows of a query and of a page. So
/// `write_rows` can print every answer.
pub fn moments_can_be_printed()
    ensures tables { TablesCanBePrinted }
    ensures rows { RowsCanBePrinted }
    ensures pages { PagesCanBePrinted }
{}
