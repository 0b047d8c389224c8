//! The rows of tables as text.
ghost use Rattle.std.specs.Prelude.{◌≡◌, ◌<◌, ◌+◌, length, OnOk};
ghost use Rattle.fleet_hub.specs.table_machine.Rows.{table_rows};

use fleet_rows::{Entity, Row};
use fleet_tables::{Steps, Tables};
use plain_tables::put_cell;
use std::alloc::{AllocError, Global};
use std::marker::Brand;
use std::sync::ledger::{Blank, Ledger};

// The cells of a row, each behind a blank.
fn append_row(out: &mut Vec<u8>, row: &Row) -> Result<(), AllocError> {
    for cell in row.cells.as_slice() {
        out.push(b' ')?;
        put_cell(out, cell)?;
    }
    Ok(())
}

fn append_rows<L: Ledger>(
    out: &mut Vec<u8>,
    tables: &Tables,
    entity: Entity,
    steps: &mut Steps<L>,
) -> Result<(), AllocError>
    ensures { OnOk result (steps.new ≡ steps.old + length (table_rows entity tables.now)) }
{
    'rows: for i in 0..tables.count(entity) {
        append_row(out, &tables.row(entity, i, steps)?)?;
    }
    Ok(())
}

fn text_by<L: Ledger>(
    blank: Blank,
    alloc: Global,
    tables: &Tables,
    entity: Entity,
) -> Result<Vec<u8>, AllocError>
    requires name { blank.name ≡ L.name }
    requires parts { blank.parts ≡ L.parts }
    requires one { 0 < blank.parts }
{
    let mut steps: Steps<L> = Steps::begin(blank);
    let mut out = Vec::new(alloc);
    append_rows(&mut out, tables, entity, &mut steps)?;
    Ok(out)
}

/// The cells of all rows of an entity.
pub(crate) fn text(alloc: Global, tables: &Tables, entity: Entity) -> Result<Vec<u8>, AllocError> {
    text_by::<Brand>(Blank::new(1), alloc, tables, entity)
}
