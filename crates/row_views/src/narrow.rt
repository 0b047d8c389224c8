//! Says which columns are seen by reference, and copies rows without the others.
ghost use Rattle.std.specs.Prelude.{◌≡◌, ◌++◌, ◌∷◌, [], map, Some, IfOk, OnOk, if◌then◌else◌};
ghost use Rattle.fleet_tables.specs.fleet_rows.Cell.{cell_of, cells_of, plain};
ghost use Rattle.fleet_tables.specs.fleet_rows.Columns.{column_name};
ghost use Rattle.paging_text.specs.means_spec.Cells.{names_in};
ghost use Rattle.same_text.specs.text_spec.Json.{null};
ghost use Rattle.row_views.specs.Narrow.{referred, narrowed, is_referred};

use fleet_tables::fleet_rows::{Cell, Cells, Column, Entity};
use same_text::json_tree::Json;
use std::alloc::{AllocError, Global};

const OF_RESOURCES: &[bool] = &[true, true, true, true, false, false, false, false];

const OF_REPORTS: &[bool] = &[
    true, true, true, true, false, false, false, true, true, true, true, true, false, false,
];

/// For each of the entity's columns, whether it is seen by reference. Columns behind the list are.
pub(crate) fn referred(entity: Entity) -> &'static [bool]
    ensures { result.now ≡ referred entity }
{
    match entity {
        Entity::Resources => OF_RESOURCES,
        Entity::Reports => OF_REPORTS,
        _ => &[],
    }
}

fn push_all(alloc: Global, row: &[Cell], cells: &mut Cells) -> Result<(), AllocError>
    ensures { OnOk result (cells.new ≡ cells.old ++ cells_of row.now) }
{
    for cell in row {
        cells.push(cell.copy(alloc)?)?;
    }
    Ok(())
}

// Appends copies of the cells, with null in the columns that aren't seen by reference.
fn push_narrow(
    alloc: Global,
    flags: &[bool],
    row: &[Cell],
    cells: &mut Cells,
) -> Result<(), AllocError>
    ensures { OnOk result (cells.new ≡ cells.old ++ narrowed flags.now (cells_of row.now)) }
{
    match flags {
        [flag, flags @ ..] => match row {
            [cell, row @ ..] => {
                push_if(alloc, *flag, cell, cells)?;
                push_narrow(alloc, flags, row, cells)
            }
            [] => Ok(()),
        },
        [] => push_all(alloc, row, cells),
    }
}

fn push_if(alloc: Global, flag: bool, cell: &Cell, cells: &mut Cells) -> Result<(), AllocError>
    ensures { OnOk result (cells.new ≡ cells.old ++ (if flag then cell_of cell.now else plain null) ∷ []) }
{
    if flag {
        cells.push(cell.copy(alloc)?)
    } else {
        cells.push(Cell::Plain(Json::Null))
    }
}

/// Copies of the cells, with null in the columns that aren't seen by reference.
pub(crate) fn narrow_cells(alloc: Global, flags: &[bool], row: &[Cell]) -> Result<Cells, AllocError>
    ensures { IfOk result (λ cells. cells ≡ narrowed flags.now (cells_of row.now)) }
{
    let mut cells = Cells::with_capacity(alloc, row.len())?;
    push_narrow(alloc, flags, row, &mut cells)?;
    Ok(cells)
}

fn is_referred_among(columns: &[Column], flags: &[bool], name: &str) -> bool
    ensures { result ≡ is_referred (map column_name columns.now) flags.now name.now }
{
    match flags {
        [flag, flags @ ..] => match columns {
            [column, columns @ ..] => {
                if name == column.name() {
                    *flag
                } else {
                    is_referred_among(columns, flags, name)
                }
            }
            [] => true,
        },
        [] => true,
    }
}

/// Whether a narrow row of the entity shows the column with this name as the whole row does.
pub fn is_referred(entity: Entity, name: &str) -> bool
    ensures { result ≡ is_referred (names_in (Some entity)) (referred entity) name.now }
{
    is_referred_among(entity.columns(), referred(entity), name)
}
