//! Finds the cells of made rows by column names.
ghost use Rattle.std.specs.Prelude.{◌≡◌, map};
ghost use Rattle.fleet_tables.specs.fleet_rows.Cell.{cells_of};
ghost use Rattle.fleet_tables.specs.fleet_rows.Columns.{column_name};
ghost use Rattle.paging_text.specs.means_spec.Cells.{cell_under, cell_in};
ghost use Rattle.paging_text.specs.Shown.{cell_or_null};

use fleet_tables::fleet_rows::{Cell, Column, Entity};

fn cell_among<'a>(columns: &[Column], name: &str, row: &'a [Cell]) -> Option<&'a Cell>
    ensures { cell_or_null result ≡ cell_under (map column_name columns.now) name.now (cells_of row.now) }
{
    match columns {
        [column, columns @ ..] => match row {
            [cell, row @ ..] => {
                if name == column.name() {
                    Some(cell)
                } else {
                    cell_among(columns, name, row)
                }
            }
            [] => None,
        },
        [] => None,
    }
}

/// The cell in the column with this name, or None if the entity has no such column.
pub fn cell_in<'a>(entity: Option<Entity>, name: &str, row: &'a [Cell]) -> Option<&'a Cell>
    ensures { cell_or_null result ≡ cell_in entity name.now (cells_of row.now) }
{
    match entity {
        None => None,
        Some(entity) => cell_among(entity.columns(), name, row),
    }
}
