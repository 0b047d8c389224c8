//! Finds values of rows by column names: certnames, and whether a row's node is active.
ghost use Rattle.std.specs.Prelude.{◌≡◌, IfOk, map};
ghost use Rattle.fleet_tables.specs.fleet_rows.Cell.{cell_of};
ghost use Rattle.std.specs.Option.{option_copied};
ghost use Rattle.fleet_tables.specs.fleet_rows.Cell.{cells_of};
ghost use Rattle.fleet_tables.specs.fleet_rows.Columns.{column_name};
ghost use Rattle.fleet_tables.specs.Asked.{is_inactive_in};
ghost use Rattle.query_plan.specs.means_spec.Cells.{names_in, text_in, node_in};
ghost use Rattle.paging_text.specs.Shown.{cell_or_null};
ghost use Rattle.row_views.specs.Seen.{seen_value};

use fleet_tables::Tables;
use fleet_tables::fleet_rows::{Cell, Column, Entity, Names};
use row_views::{Seen, View, cell_in};
use same_text::json_tree::{Json, Text};
use std::alloc::{AllocError, Global};

/// The names of the columns of the entity's rows.
pub fn column_names(alloc: Global, entity: Option<Entity>) -> Result<Names, AllocError>
    ensures { IfOk result (λ names. names ≡ names_in entity) }
{
    match entity {
        None => Ok(Names::new(alloc)),
        Some(entity) => names_of(alloc, entity.columns()),
    }
}

fn names_of(alloc: Global, columns: &[Column]) -> Result<Names, AllocError>
    ensures { IfOk result (λ names. names ≡ map column_name columns.now) }
{
    let mut names = Names::new(alloc);
    for column in columns {
        names.push(Text::from_str(alloc, column.name())?)?;
    }
    Ok(names)
}

/// A copy of the cell, or null if there is none.
pub fn copy_or_null(alloc: Global, cell: Option<&Cell>) -> Result<Cell, AllocError>
    ensures { IfOk result (λ copied. cell_of copied ≡ cell_or_null cell.entry) }
{
    match cell {
        Some(cell) => cell.copy(alloc),
        None => Ok(Cell::Plain(Json::Null)),
    }
}

/// The text in the cell, if it holds one.
pub(crate) fn text_in(cell: Option<&Cell>) -> Option<&Text>
    ensures { option_copied result ≡ text_in (cell_or_null cell.entry) }
{
    match cell {
        Some(Cell::Plain(Json::Text(text))) => Some(text),
        _ => None,
    }
}

/// The certname of the row's node.
pub fn node_in(entity: Option<Entity>, row: &[Cell]) -> &str
    ensures { result.now ≡ node_in entity (cells_of row.now) }
{
    match text_in(cell_in(entity, "certname", row)) {
        Some(text) => text.as_str(),
        None => "",
    }
}

/// The text that is seen, if it is one.
pub fn text_seen<'a>(seen: Seen<'a>) -> Option<&'a Text>
    ensures { option_copied result ≡ text_in (seen_value seen.entry) }
{
    match seen {
        Seen::Cell(Cell::Plain(Json::Text(text))) => Some(text),
        Seen::Value(Json::Text(text)) => Some(text),
        Seen::Text(text) => Some(text),
        _ => None,
    }
}

/// The certname of the node of a row that is seen.
pub fn node_seen<'a>(entity: Option<Entity>, row: &'a View<'_>) -> &'a str
    ensures { result.now ≡ node_in entity row.now }
{
    match text_seen(row.seen(entity, "certname")) {
        Some(text) => text.as_str(),
        None => "",
    }
}

/// Whether the row's node is deactivated or expired.
pub(crate) fn is_inactive(
    alloc: Global,
    tables: &Tables,
    entity: Option<Entity>,
    row: &View<'_>,
) -> Result<bool, AllocError>
    ensures { IfOk result (λ inactive. inactive ≡ is_inactive_in tables.now (node_in entity row.now)) }
{
    match text_seen(row.seen(entity, "certname")) {
        Some(text) => Ok(tables.inactive(text)),
        None => {
            let nobody = Text::from_str(alloc, "")?;
            Ok(tables.inactive(&nobody))
        }
    }
}
