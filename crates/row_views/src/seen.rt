//! Refers to the values that a row shows.
ghost use Rattle.std.specs.Prelude.{◌≡◌, IfOk, map};
ghost use Rattle.fleet_tables.specs.fleet_rows.Cell.{cell_of, cells_of, plain};
ghost use Rattle.fleet_tables.specs.fleet_rows.Columns.{column_name};
ghost use Rattle.paging_text.specs.means_spec.Cells.{cell_under};
ghost use Rattle.paging_text.specs.Shown.{cell_or_null};
ghost use Rattle.paging_text.specs.means_spec.table_spec.Cells.{moment_or_null, text_cell_or_null};
ghost use Rattle.paging_text.specs.means_spec.table_spec.history_spec.Report.{bool_or_null};
ghost use Rattle.row_views.specs.Seen.{seen_value};

use fleet_tables::fleet_rows::{Cell, Cells, Column};
use fleet_tables::stamp_time::Moment;
use same_text::json_tree::{Json, Text};
use std::alloc::{AllocError, Global};

/// A cell of a row, a value or a text that is kept, a flag, a moment in nanoseconds since the epoch, or null.
#[derive(Clone, Copy)]
pub enum Seen<'a> {
    Cell(&'a Cell),
    Value(&'a Json),
    Text(&'a Text),
    Flag(bool),
    Stamp(i128),
    Null,
}

/// The cell, or null if there is none.
pub fn seen_of(cell: Option<&Cell>) -> Seen<'_>
    ensures { seen_value result ≡ cell_or_null cell.entry }
{
    match cell {
        Some(cell) => Seen::Cell(cell),
        None => Seen::Null,
    }
}

/// The text, or null if there is none.
pub(crate) fn text_or_null(text: &Option<Text>) -> Seen<'_>
    ensures { seen_value result ≡ text_cell_or_null text.now }
{
    match text {
        Some(text) => Seen::Text(text),
        None => Seen::Null,
    }
}

/// The flag, or null if there is none.
pub(crate) fn flag_or_null<'a>(flag: Option<bool>) -> Seen<'a>
    ensures { seen_value result ≡ plain (bool_or_null flag) }
{
    match flag {
        Some(flag) => Seen::Flag(flag),
        None => Seen::Null,
    }
}

/// The moment, or null if there is none.
pub(crate) fn moment_or_null<'a>(moment: Option<Moment>) -> Seen<'a>
    ensures { seen_value result ≡ moment_or_null moment }
{
    match moment {
        Some(moment) => Seen::Stamp(moment.as_nanosecond()),
        None => Seen::Null,
    }
}

/// The value in the column with this name, or null if there is no such column.
pub(crate) fn seen_among<'a>(columns: &[Column], name: &str, row: &[Seen<'a>]) -> Seen<'a>
    ensures { seen_value result ≡ cell_under (map column_name columns.now) name.now (map seen_value row.now) }
{
    match columns {
        [column, columns @ ..] => match row {
            [seen, row @ ..] => {
                if name == column.name() {
                    *seen
                } else {
                    seen_among(columns, name, row)
                }
            }
            [] => Seen::Null,
        },
        [] => Seen::Null,
    }
}

/// A copy of the value.
pub fn copied(alloc: Global, seen: &Seen<'_>) -> Result<Cell, AllocError>
    ensures { IfOk result (λ cell. cell_of cell ≡ seen_value seen.now) }
{
    match seen {
        Seen::Cell(cell) => cell.copy(alloc),
        Seen::Value(json) => Ok(Cell::Plain(json.copy(alloc)?)),
        Seen::Text(text) => Ok(Cell::Plain(Json::Text(Text::from_str(alloc, text.as_str())?))),
        Seen::Flag(flag) => Ok(Cell::Plain(Json::Bool(*flag))),
        Seen::Stamp(nanos) => Ok(Cell::Stamp(Moment::from_nanosecond(*nanos))),
        Seen::Null => Ok(Cell::Plain(Json::Null)),
    }
}

/// Copies of the values.
pub(crate) fn all_copied(alloc: Global, row: &[Seen<'_>]) -> Result<Cells, AllocError>
    ensures { IfOk result (λ cells. cells ≡ map seen_value row.now) }
{
    let mut cells = Cells::with_capacity(alloc, row.len())?;
    for seen in row {
        cells.push(copied(alloc, seen)?)?;
    }
    Ok(cells)
}

/// Copies of the cells.
pub(crate) fn copied_cells(alloc: Global, row: &[Cell]) -> Result<Cells, AllocError>
    ensures { IfOk result (λ cells. cells ≡ cells_of row.now) }
{
    let mut cells = Cells::with_capacity(alloc, row.len())?;
    for cell in row {
        cells.push(cell.copy(alloc)?)?;
    }
    Ok(cells)
}
