//! Makes the rows of `fact_contents` from a row of `facts`.
//!
//! One path of references serves the whole walk. A row copies it, and nothing else is copied but the cells that the row shows.
ghost use Rattle.std.specs.Prelude.{◌≡◌, [], ◌++◌, IfOk, OnOk, map, decimal};
ghost use Rattle.fleet_rows.specs.Cell.{cell_of, cells_of, plain};
ghost use Rattle.fleet_rows.specs.json_tree.Tree.{json_of, jsons};
ghost use Rattle.fleet_rows.specs.text_spec.Json.{array, string, levels, items_of, members_of};
ghost use Rattle.fleet_rows.specs.text_spec.Compact.{arranged_items, arranged_members};
ghost use Rattle.fact_paths.specs.Leaves.{is_leaf, leaves, item_leaves, member_leaves, path_value, step_value};
ghost use Rattle.fact_paths.specs.Rows.{contents, contents_of, content_row};
ghost use Rattle.fact_paths.specs.Steps.{step_of, steps_of};
ghost use Rattle.fact_paths.specs.Under.{row_at, rows_under};

use crate::list::Rows;
use crate::step::StepRef;
use fleet_rows::json_tree::{Items, Json, Members, Number, Text};
use fleet_rows::{Cell, Cells, Entity, Row};
use itoa::Buffer;
use std::alloc::{AllocError, Global};

/// What the rows of one fact have in common.
#[derive(Clone, Copy)]
pub(crate) struct Fact<'a> {
    certname: &'a Cell,
    environment: &'a Cell,
    name: &'a Text,
}

/// The rows of `fact_contents` for a row of `facts`: one for each leaf of the fact's value, by their paths. Empty arrays and
/// objects are leaves. A row of another shape has none.
pub fn leaves(alloc: Global, row: &Row) -> Result<Rows, AllocError>
    ensures { IfOk result (λ rows. rows ≡ map content_row (contents_of row.now.cells)) }
{
    rows_for(alloc, row.cells.as_slice())
}

fn rows_for(alloc: Global, cells: &[Cell]) -> Result<Rows, AllocError>
    ensures { IfOk result (λ rows. rows ≡ map content_row (contents_of (cells_of cells.now))) }
{
    match cells {
        [certname, environment, name, value] => {
            rows_of(alloc, certname, environment, name, value)
        }
        _ => Ok(Rows::new(alloc)),
    }
}

fn rows_of(
    alloc: Global,
    certname: &Cell,
    environment: &Cell,
    name: &Cell,
    value: &Cell,
) -> Result<Rows, AllocError>
    ensures { IfOk result (λ rows. rows ≡ map content_row (contents (cell_of certname.now) (cell_of environment.now) (cell_of name.now) (cell_of value.now))) }
{
    match name {
        Cell::Plain(name) => shown_rows(alloc, certname, environment, name, value),
        Cell::Stamp(_) => Ok(Rows::new(alloc)),
    }
}

fn shown_rows(
    alloc: Global,
    certname: &Cell,
    environment: &Cell,
    name: &Json,
    value: &Cell,
) -> Result<Rows, AllocError>
    ensures { IfOk result (λ rows. rows
        ≡ map content_row (contents (cell_of certname.now) (cell_of environment.now) (plain (json_of name.now)) (cell_of value.now))) }
{
    match name {
        Json::Text(name) => named_rows(alloc, certname, environment, name, value),
        _ => Ok(Rows::new(alloc)),
    }
}

fn named_rows(
    alloc: Global,
    certname: &Cell,
    environment: &Cell,
    name: &Text,
    value: &Cell,
) -> Result<Rows, AllocError>
    ensures { IfOk result (λ rows. rows
        ≡ map content_row (contents (cell_of certname.now) (cell_of environment.now) (plain (string name.now)) (cell_of value.now))) }
{
    match value {
        Cell::Plain(value) => {
            let fact = Fact {
                certname,
                environment,
                name,
            };
            all(alloc, fact, value)
        }
        Cell::Stamp(_) => Ok(Rows::new(alloc)),
    }
}

fn all(alloc: Global, fact: Fact, value: &Json) -> Result<Rows, AllocError>
    ensures { IfOk result (λ rows. rows ≡ rows_under fact.entry [] (leaves (json_of value.now))) }
{
    let mut path = Vec::new(alloc);
    let mut rows = Rows::new(alloc);
    walk(alloc, fact, &mut path, value, &mut rows)?;
    Ok(rows)
}

// Appends the rows of the leaves of a value to which `path` leads.
#[cycle(walk)]
fn walk<'a>(
    alloc: Global,
    fact: Fact<'a>,
    path: &mut Vec<StepRef<'a>>,
    value: &'a Json,
    rows: &mut Rows,
) -> Result<(), AllocError>
    ensures rows { OnOk result (rows.new ≡ rows.old ++ rows_under fact.entry (steps_of path.old.items) (leaves (json_of value.now))) }
    ensures path { OnOk result (path.new.items ≡ path.old.items) }
{
    if is_leaf(value) {
        rows.push(leaf_row(alloc, fact, path.as_slice(), value)?)?;
        return Ok(());
    }
    match value {
        Json::List(items) => walk_items(alloc, fact, path, items.as_slice(), rows),
        Json::Map(members) => walk_members(alloc, fact, path, members, rows),
        _ => Ok(()),
    }
}

#[cycle(walk)]
fn walk_items<'a>(
    alloc: Global,
    fact: Fact<'a>,
    path: &mut Vec<StepRef<'a>>,
    list: &'a [Json],
    rows: &mut Rows,
) -> Result<(), AllocError>
    ensures rows { OnOk result (rows.new ≡ rows.old
        ++ rows_under fact.entry (steps_of path.old.items) (item_leaves 0 (arranged_items (items_of (jsons list.now))))) }
    ensures path { OnOk result (path.new.items ≡ path.old.items) }
{
    for (index, item) in list.iter().enumerate() {
        path.push(StepRef::Index(index))?;
        walk(alloc, fact, path, item, rows)?;
        path.pop();
    }
    Ok(())
}

#[cycle(walk)]
fn walk_members<'a>(
    alloc: Global,
    fact: Fact<'a>,
    path: &mut Vec<StepRef<'a>>,
    members: &'a Members,
    rows: &mut Rows,
) -> Result<(), AllocError>
    ensures rows { OnOk result (rows.new ≡ rows.old
        ++ rows_under fact.entry (steps_of path.old.items) (member_leaves (arranged_members (members_of members.now)))) }
    ensures path { OnOk result (path.new.items ≡ path.old.items) }
{
    let sorted = members.in_key_order(alloc)?;
    for member in sorted.as_slice() {
        path.push(StepRef::Key(&member.0))?;
        walk(alloc, fact, path, &member.1, rows)?;
        path.pop();
    }
    Ok(())
}

fn is_leaf(value: &Json) -> bool
    ensures { result ≡ is_leaf (json_of value.now) }
{
    match value {
        Json::List(items) => items.as_slice().is_empty(),
        Json::Map(members) => members.len() == 0,
        _ => true,
    }
}

fn leaf_row(alloc: Global, fact: Fact, path: &[StepRef], value: &Json) -> Result<Row, AllocError>
    ensures { IfOk result (λ row. row ≡ row_at fact.entry (steps_of path.now) (json_of value.now)) }
{
    let mut cells = Cells::new(alloc);
    cells.push(fact.certname.copy(alloc)?)?;
    cells.push(fact.environment.copy(alloc)?)?;
    cells.push(Cell::Plain(Json::Text(copy_text(alloc, fact.name)?)))?;
    cells.push(Cell::Plain(Json::List(path_items(alloc, fact.name, path)?)))?;
    cells.push(Cell::Plain(value.copy(alloc)?))?;
    Ok(Row {
        entity: Entity::FactContents,
        cells,
    })
}

fn copy_text(alloc: Global, text: &Text) -> Result<Text, AllocError>
    ensures { IfOk result (λ copied. copied ≡ text.now) }
{
    Text::from_str(alloc, text.as_str())
}

fn path_items(alloc: Global, name: &Text, path: &[StepRef]) -> Result<Items, AllocError>
    ensures { IfOk result (λ items. array (items_of items) ≡ path_value name.now (steps_of path.now)) }
{
    let mut items = Items::new(alloc);
    items.push(Json::Text(copy_text(alloc, name)?))?;
    for step in path {
        items.push(step_json(alloc, step)?)?;
    }
    Ok(items)
}

fn step_json(alloc: Global, step: &StepRef) -> Result<Json, AllocError>
    ensures value { IfOk result (λ j. json_of j ≡ step_value (step_of step.now)) }
    ensures flat { IfOk result (λ j. levels (json_of j) ≡ 0) }
{
    match step {
        StepRef::Key(key) => Ok(Json::Text(copy_text(alloc, key)?)),
        StepRef::Index(index) => Ok(Json::Num(decimal_of(alloc, *index)?)),
    }
}

fn decimal_of(alloc: Global, number: usize) -> Result<Number, AllocError>
    ensures { IfOk result (λ n. n ≡ decimal number) }
{
    let mut buffer = Buffer::new();
    let digits = Text::from_str(alloc, buffer.format(number))?;
    Ok(Number::of(digits))
}
