//! Prints the rows of facts: a JSON array of objects in compact text, one for each fact of an active node.
ghost use Rattle.std.specs.Prelude.{◌≡◌, ◌<◌, ◌++◌, IfOk, OnOk};
ghost use Rattle.busy_commands.specs.text_spec.Compact.{compact, comma_if};
ghost use Rattle.busy_commands.specs.json_tree.Tree.{json_of};
ghost use Rattle.busy_commands.specs.fleet_rows.Cell.{cell_of, cells_of, plain};
ghost use Rattle.busy_commands.specs.fleet_rows.declared.row.Entity.TheVariants as entities;
ghost use Rattle.busy_commands.specs.history_spec.Trace.{Trace};
ghost use Rattle.busy_commands.specs.table_spec.Cells.{text_cell};
ghost use Rattle.busy_commands.specs.table_spec.RowsText.{row_object};
ghost use Rattle.busy_commands.specs.fleet_tables.Stands.{Stands};
ghost use Rattle.fleet_app.specs.Rows.{IsFact, IsPlain, IsText, PutsRow};
ghost use Rattle.fleet_app.specs.Show.{shown_text};

use fleet_rows::{Cell, Entity};
use fleet_tables::{Steps, Tables};
use json_tree::{Json, Text, append_compact};
use std::alloc::{AllocError, Global};
use std::sync::ledger::{Blank, Ledger};

/// The rows of facts of the nodes that are neither deactivated nor expired, by certname and then by name, and a line end.
pub(crate) fn rows_text<L: Ledger>(
    alloc: Global,
    blank: Blank,
    tables: &Tables,
) -> Result<Vec<u8>, AllocError>
    requires name { blank.name ≡ L.name }
    requires parts { blank.parts ≡ L.parts }
    requires some { 0 < blank.parts }
    requires stands { (history : Trace) × Stands tables.now history }
    ensures { (history : Trace) → Stands tables.now history
        → IfOk result (λ text. text.items ≡ shown_text tables.now.ttls history) }
{
    let mut steps = Steps::<L>::begin(blank);
    let mut out = Vec::new(alloc);
    out.push(b'[')?;
    let mut later = false;
    'rows: for i in 0..tables.count(Entity::Facts) {
        let row = tables.row(Entity::Facts, i, &mut steps)?;
        later = put_row(&mut out, later, tables, row.cells.as_slice())?;
    }
    out.extend_from_slice(b"]\n")?;
    Ok(out)
}

// Appends a row, unless its node is inactive, after a comma if it isn't the first. Answers whether any row was appended so far.
fn put_row(
    out: &mut Vec<u8>,
    later: bool,
    tables: &Tables,
    cells: &[Cell],
) -> Result<bool, AllocError>
    requires { IsFact (cells_of cells.now) }
    ensures { IfOk result (λ after. PutsRow tables.now (cells_of cells.now) later after out.old.items out.new.items) }
{
    if tables.inactive(text_in(&cells[0])) {
        return Ok(later);
    }
    put_comma(out, later)?;
    put_object(out, cells)?;
    Ok(true)
}

fn put_comma(out: &mut Vec<u8>, later: bool) -> Result<(), AllocError>
    ensures { OnOk result (out.new.items ≡ out.old.items ++ comma_if later) }
{
    if later {
        out.push(b',')?;
    }
    Ok(())
}

// Appends the object of a row of facts.
fn put_object(out: &mut Vec<u8>, cells: &[Cell]) -> Result<(), AllocError>
    requires { IsFact (cells_of cells.now) }
    ensures { OnOk result (out.new.items ≡ out.old.items ++ compact (row_object entities.Facts (cells_of cells.now))) }
{
    out.extend_from_slice(b"{\"certname\":")?;
    append_compact(out, value_in(&cells[0]))?;
    out.extend_from_slice(b",\"environment\":")?;
    append_compact(out, value_in(&cells[1]))?;
    out.extend_from_slice(b",\"name\":")?;
    append_compact(out, value_in(&cells[2]))?;
    out.extend_from_slice(b",\"value\":")?;
    append_compact(out, value_in(&cells[3]))?;
    out.push(b'}')?;
    Ok(())
}

// The value of a cell that isn't a moment.
fn value_in(cell: &Cell) -> &Json
    requires { IsPlain (cell_of cell.now) }
    ensures { cell_of cell.now ≡ plain (json_of result.now) }
{
    match cell {
        Cell::Plain(value) => value,
        Cell::Stamp(_) => unreachable!(),
    }
}

// The text of a cell that holds one.
fn text_in(cell: &Cell) -> &Text
    requires { IsText (cell_of cell.now) }
    ensures { cell_of cell.now ≡ text_cell result.now }
{
    match cell {
        Cell::Plain(Json::Text(text)) => text,
        _ => unreachable!(),
    }
}
