//! Makes the rows that are shown.
ghost use Rattle.std.specs.Prelude.{◌≡◌, IfOk, map};
ghost use Rattle.fleet_tables.specs.fleet_rows.Cell.{cells_of};
ghost use Rattle.query_plan.specs.means_spec.Shown.{distinct, output_names, column_cell, shown_cells};
ghost use Rattle.paging_text.specs.Shown.{cell_or_null};
ghost use Rattle.query_plan.specs.query_spec.Check as check;
ghost use Rattle.query_plan.specs.query_spec.Parts.{output_name};
ghost use Rattle.query_rows.specs.Referred.{selected_of};

use fleet_tables::fleet_rows::{Cell, Cells, Entity, Names};
use paging_text::Lines;
use query_plan::ast_tree::output_name;
use query_plan::query_spec::{Selected, Selection};
use query_rows::{column_names, copy_or_null};
use row_views::cell_in;
use same_text::json_tree::Text;
use std::alloc::{AllocError, Global};

// Whether one of the outputs has this name.
fn has_output(outputs: &[&Selected], name: &str) -> bool
    ensures { result ≡ check.has_output (selected_of outputs.now) name.now }
{
    for output in outputs {
        if output_name(output) == name {
            return true;
        }
    }
    false
}

/// The outputs without those whose name an earlier one has.
pub(crate) fn distinct(alloc: Global, shown: &[Selected]) -> Result<Vec<&Selected>, AllocError>
    ensures { IfOk result (λ outputs. selected_of outputs.items ≡ distinct shown.now) }
{
    let mut outputs = Vec::new(alloc);
    for output in shown {
        if !has_output(outputs.as_slice(), output_name(output)) {
            outputs.push(output)?;
        }
    }
    Ok(outputs)
}

fn names_of(alloc: Global, outputs: &[&Selected]) -> Result<Names, AllocError>
    ensures { IfOk result (λ names. names ≡ map output_name (selected_of outputs.now)) }
{
    let mut names = Names::new(alloc);
    for output in outputs {
        names.push(Text::from_str(alloc, output_name(output))?)?;
    }
    Ok(names)
}

/// The names of the outputs; those of all columns if nothing is said.
pub fn output_names(
    alloc: Global,
    entity: Option<Entity>,
    shown: &Option<Selection>,
) -> Result<Names, AllocError>
    ensures { IfOk result (λ names. names ≡ output_names entity shown.now) }
{
    match shown {
        None => column_names(alloc, entity),
        Some(shown) => {
            let outputs = distinct(alloc, shown.as_slice())?;
            names_of(alloc, outputs.as_slice())
        }
    }
}

// The cell of an output of a single row. Functions apply only to groups.
fn column_cell<'a>(entity: Option<Entity>, row: &'a [Cell], selected: &Selected) -> Option<&'a Cell>
    ensures { cell_or_null result ≡ column_cell entity (cells_of row.now) selected.now }
{
    match selected {
        Selected::Column(name) => cell_in(entity, name.text.as_str(), row),
        Selected::Rows | Selected::Function(_, _) => None,
    }
}

fn shown_row(
    alloc: Global,
    entity: Option<Entity>,
    outputs: &[&Selected],
    row: &[Cell],
) -> Result<Cells, AllocError>
    ensures { IfOk result (λ cells. cells ≡ map (column_cell entity (cells_of row.now)) (selected_of outputs.now)) }
{
    let mut cells = Cells::new(alloc);
    for output in outputs {
        cells.push(copy_or_null(alloc, column_cell(entity, row, output))?)?;
    }
    Ok(cells)
}

fn shown_of(
    alloc: Global,
    entity: Option<Entity>,
    outputs: &[&Selected],
    row: &Cells,
) -> Result<Cells, AllocError>
    ensures { IfOk result (λ cells. cells ≡ map (column_cell entity row.now) (selected_of outputs.now)) }
{
    shown_row(alloc, entity, outputs, row.as_slice())
}

fn shown_columns(
    alloc: Global,
    entity: Option<Entity>,
    outputs: &[&Selected],
    rows: &[Cells],
) -> Result<Lines, AllocError>
    ensures { IfOk result (λ lines. lines ≡ map (λ row. map (column_cell entity row) (selected_of outputs.now)) rows.now) }
{
    let mut lines = Lines::new(alloc);
    for row in rows {
        lines.push(shown_of(alloc, entity, outputs, row)?)?;
    }
    Ok(lines)
}

/// The rows that are shown without grouping.
pub(crate) fn shown_rows(
    alloc: Global,
    entity: Option<Entity>,
    shown: &Option<Selection>,
    rows: Lines,
) -> Result<Lines, AllocError>
    ensures { IfOk result (λ lines. lines ≡ map (shown_cells entity shown.now) rows) }
{
    match shown {
        None => Ok(rows),
        Some(shown) => {
            let outputs = distinct(alloc, shown.as_slice())?;
            shown_columns(alloc, entity, outputs.as_slice(), rows.as_slice())
        }
    }
}
