//! Laws on columns and hashes.
ghost use Rattle.table_laws.specs.RowLaws.{ColumnsAreStrictlySorted, RowsFillTheirColumns};
ghost use Rattle.table_laws.specs.HashLaws.{FactsetsAreHashed, ReportsAreHashed, ResourcesAreHashed};
ghost use Rattle.table_laws.specs.JoinLaws.{CatalogsAreHashed};
ghost use Rattle.table_laws.specs.NamedLaws.{CellsStandUnderTheirColumns, OtherNamesHaveNull, TextsEqualThemselves, StampsEqualTheirMoments};
ghost use Rattle.table_laws.specs.PrintLaws.{MomentsArePrinted};
ghost use Rattle.table_laws.specs.ShownLaws.{RowsShowTheirEnvironment, ReportsShowTheirReceipt};
ghost use Rattle.table_machine.specs.fleet_rows.declared.command.Kind.TheVariants as kind;
ghost use Rattle.table_machine.specs.fleet_rows.declared.row.Entity.TheVariants as entity;

/// The columns of an entity are strictly sorted by name, and each row has one cell for each.
pub fn a_row_fills_its_columns()
    ensures sorted { ColumnsAreStrictlySorted }
    ensures filled { RowsFillTheirColumns }
{}

/// A column's name finds the cell at the column's index. Every other name finds null.
pub fn a_cell_stands_under_its_column()
    ensures found { CellsStandUnderTheirColumns }
    ensures none { OtherNamesHaveNull }
{}

/// A text equals the JSON string of that text and the moments of which it is a stamp, and no other cell.
pub fn a_text_equals_itself()
    ensures texts { TextsEqualThemselves }
    ensures moments { StampsEqualTheirMoments }
{}

/// The hash in a row is that of the row's other columns. A report's hash leaves out the moment of receipt, and a resource's hash
/// leaves out certname and environment. A catalog's hash also includes the rows of its edges and the hashes of its resources.
pub fn a_hash_is_that_of_the_other_columns()
    ensures factsets { FactsetsAreHashed }
    ensures reports { ReportsAreHashed }
    ensures resources { ResourcesAreHashed }
    ensures catalogs { CatalogsAreHashed }
{}

/// A printed row contains a moment as its stamp with three fraction digits.
pub fn a_moment_is_printed_with_three_digits()
    ensures { MomentsArePrinted }
{}

/// A row shows the environment of its command: the newest facts or the newest catalog of the node whose certname it has.
pub fn a_row_shows_its_environment()
    ensures factsets { RowsShowTheirEnvironment entity.Factsets kind.Facts }
    ensures facts { RowsShowTheirEnvironment entity.Facts kind.Facts }
    ensures catalogs { RowsShowTheirEnvironment entity.Catalogs kind.Catalog }
    ensures resources { RowsShowTheirEnvironment entity.Resources kind.Catalog }
{}

/// A row of a report shows that report's environment and its moment of receipt, or null if that is unknown.
pub fn a_report_shows_when_it_was_received()
    ensures { ReportsShowTheirReceipt }
{}
