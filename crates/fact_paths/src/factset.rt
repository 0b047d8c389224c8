//! Makes a row of `inventory` from a row of `factsets`.
ghost use Rattle.std.specs.Prelude.{◌≡◌, IfOk, codes, unwrap_or};
ghost use Rattle.fleet_rows.specs.text_spec.Json.{null, find_member};
ghost use Rattle.fleet_rows.specs.Cell.{cell_of, cells_of, plain};
ghost use Rattle.fleet_rows.specs.json_tree.Tree.{json_of};
ghost use Rattle.fact_paths.specs.Rows.{trusted_in, inventory_cells, inventory_of, inventory_row};

use crate::names::member;
use fleet_rows::json_tree::{Json, Members};
use fleet_rows::{Cell, Cells, Entity, Row};
use std::alloc::{AllocError, Global};

/// The row of `inventory` for a row of `factsets`. Its timestamp is the one of the producer, and `trusted` is the value of the fact
/// of this name, or null. A row with another number of cells gives a row without cells.
pub fn inventory(alloc: Global, row: &Row) -> Result<Row, AllocError>
    ensures { IfOk result (λ made. made ≡ inventory_row (inventory_of row.now.cells)) }
{
    let cells = cells_for(alloc, row.cells.as_slice())?;
    Ok(Row {
        entity: Entity::Inventory,
        cells,
    })
}

fn cells_for(alloc: Global, cells: &[Cell]) -> Result<Cells, AllocError>
    ensures { IfOk result (λ made. made ≡ inventory_of (cells_of cells.now)) }
{
    match cells {
        [certname, environment, facts, _, _, timestamp] => {
            shown(alloc, certname, environment, facts, timestamp)
        }
        _ => Ok(Cells::new(alloc)),
    }
}

fn shown(
    alloc: Global,
    certname: &Cell,
    environment: &Cell,
    facts: &Cell,
    timestamp: &Cell,
) -> Result<Cells, AllocError>
    ensures { IfOk result (λ made. made ≡ inventory_cells (cell_of certname.now) (cell_of environment.now) (cell_of facts.now) (cell_of timestamp.now)) }
{
    let mut cells = Cells::new(alloc);
    cells.push(certname.copy(alloc)?)?;
    cells.push(environment.copy(alloc)?)?;
    cells.push(facts.copy(alloc)?)?;
    cells.push(timestamp.copy(alloc)?)?;
    cells.push(trusted(alloc, facts)?)?;
    Ok(cells)
}

fn trusted(alloc: Global, facts: &Cell) -> Result<Cell, AllocError>
    ensures { IfOk result (λ made. cell_of made ≡ plain (trusted_in (cell_of facts.now))) }
{
    match facts {
        Cell::Plain(facts) => trusted_value(alloc, facts),
        Cell::Stamp(_) => Ok(Cell::Plain(Json::Null)),
    }
}

fn trusted_value(alloc: Global, facts: &Json) -> Result<Cell, AllocError>
    ensures { IfOk result (λ made. cell_of made ≡ plain (trusted_in (plain (json_of facts.now)))) }
{
    match facts {
        Json::Map(members) => trusted_member(alloc, members),
        _ => Ok(Cell::Plain(Json::Null)),
    }
}

fn trusted_member(alloc: Global, facts: &Members) -> Result<Cell, AllocError>
    ensures { IfOk result (λ made. cell_of made ≡ plain (unwrap_or (find_member (codes "trusted") facts.now) null)) }
{
    match member(facts, "trusted") {
        Some(value) => Ok(Cell::Plain(value.copy(alloc)?)),
        None => Ok(Cell::Plain(Json::Null)),
    }
}
