//! Tells of which inner level a row's node is one, if its filter holds, and lists the nodes that the level found.
//!
//! A conjunct `certname in` a level demands it, and so does `subquery`. Then an outer level may read the rows of these nodes alone.
ghost use Rattle.std.specs.Prelude.{◌≡◌, [], ◌∷◌, ℕ, List, true, false, ◌||◌, IfOk, OnOk, reverse, codes};
ghost use Rattle.std.specs.Option.{option_copied, option_map_or};
ghost use Rattle.std.specs.Str.{bytes_eq};
ghost use Rattle.fleet_tables.specs.fleet_rows.Cell.{cell_of, cells_of};
ghost use Rattle.query_plan.specs.Made.{step_of, steps_of};
ghost use Rattle.query_plan.specs.means_spec.Cells.{equal_cells, node_in, text_in};
ghost use Rattle.query_plan.specs.table_spec.Cells.{text_cell};
ghost use Rattle.query_reach.specs.Seen.{texts_seen};
ghost use Rattle.query_reading.specs.Joins.{column_join, field_join, fields_join, first_join, join_act, step_join, is_among, HasNodes, Joins};
ghost use Rattle.std.specs.List.{list_any};

use crate::reading::Reading;
use fleet_tables::Tables;
use fleet_tables::fleet_rows::{Cell, Cells, Entity};
use query_plan::Step;
use query_plan::query_spec::{Field, Name};
use query_rows::{Known, node_in};
use same_text::json_tree::{Json, Text};
use std::alloc::{AllocError, Global};

/// The place of an inner level, and what names a node in it: its only cell, or its rows' node.
#[derive(Clone, Copy)]
pub enum Join {
    ByCell(usize),
    ByNode(Option<Entity>, usize),
}

/// Nodes to which a level is limited, if it is. They may come more than once.
#[derive(Drop)]
pub struct Nodes<'f> {
    pub joined: bool,
    pub list: Vec<&'f str>,
}

// ---- which level a filter demands

fn column_join(name: &Name, at: usize) -> Option<Join>
    ensures { result ≡ column_join (bytes_eq name.now.text (codes "certname")) at }
{
    if name.text.as_str() == "certname" {
        Some(Join::ByCell(at))
    } else {
        None
    }
}

fn field_join(field: &Field, at: usize) -> Option<Join>
    ensures { result ≡ field_join field.now at }
{
    match field {
        Field::Column(name) => column_join(name, at),
        Field::Parameter(_) => None,
        Field::Fact(_) => None,
        Field::Tag(_) => None,
        Field::NodeState(_) => None,
    }
}

fn fields_join(fields: &[Field], at: usize) -> Option<Join>
    ensures { result ≡ fields_join fields.now at }
{
    match fields {
        [] => None,
        [field] => field_join(field, at),
        [_, _, ..] => None,
    }
}

fn first_join(a: Option<Join>, b: Option<Join>) -> Option<Join>
    ensures { result ≡ first_join a b }
{
    match a {
        Some(join) => Some(join),
        None => b,
    }
}

// What is demanded after a step, for each boolean on the stack where it is true.
fn join_step(step: &Step<'_>, stack: &mut Vec<Option<Join>>) -> Result<(), AllocError>
    ensures { OnOk result (reverse stack.new.items ≡ join_act (step_of step.now) (reverse stack.old.items)) }
{
    match step {
        Step::Compares(_, _, _) => stack.push(None)?,
        Step::TestsNull(_, _) => stack.push(None)?,
        Step::Lists(_, _) => stack.push(None)?,
        Step::Fits(_, _) => stack.push(None)?,
        Step::Selects(fields, at) => stack.push(fields_join(*fields, *at))?,
        Step::SharesNode(other, at) => stack.push(Some(Join::ByNode(*other, *at)))?,
        Step::Constant(_) => stack.push(None)?,
        Step::Invert => {
            if let Some(_top) = stack.pop() {
                stack.push(None)?;
            }
        }
        Step::Both => {
            if let Some(b) = stack.pop() {
                if let Some(a) = stack.pop() {
                    stack.push(first_join(a, b))?;
                }
            }
        }
        Step::Either => {
            if let Some(_b) = stack.pop() {
                if let Some(_a) = stack.pop() {
                    stack.push(None)?;
                }
            }
        }
    }
    Ok(())
}

// The level that the steps demand.
fn join_of(alloc: Global, steps: &[Step<'_>]) -> Result<Option<Join>, AllocError>
    ensures { IfOk result (λ join. join ≡ step_join (steps_of steps.now)) }
{
    let mut stack = Vec::new(alloc);
    'walking: for step in steps {
        join_step(step, &mut stack)?;
    }
    match stack.pop() {
        Some(join) => Ok(join),
        None => Ok(None),
    }
}

// ---- the nodes that the level found

fn ends_with(nodes: &[&str], node: &str) -> bool
    ensures { result ≡ true → is_among (texts_seen nodes.now) node.now ≡ true }
{
    match nodes {
        [] => false,
        [.., last] => *last == node,
    }
}

// Appends the node, if it isn't the last one.
fn note_node<'f>(nodes: &mut Vec<&'f str>, node: &'f str) -> Result<(), AllocError>
    ensures { OnOk result ((s : List ℕ) → (bytes_eq s node.now || is_among (texts_seen nodes.old.items) s) ≡ true
        → is_among (texts_seen nodes.new.items) s ≡ true) }
{
    if !ends_with(nodes.as_slice(), node) {
        nodes.push(node)?;
    }
    Ok(())
}

fn text_of(cell: &Cell) -> Option<&Text>
    ensures { option_copied result ≡ text_in (cell_of cell.now) }
{
    match cell {
        Cell::Plain(Json::Text(text)) => Some(text),
        _ => None,
    }
}

fn note_text<'f>(nodes: &mut Vec<&'f str>, cell: &'f Cell) -> Result<(), AllocError>
    ensures { OnOk result ((s : List ℕ) → (option_map_or (bytes_eq s) (text_in (cell_of cell.now)) false || is_among (texts_seen nodes.old.items) s) ≡ true
        → is_among (texts_seen nodes.new.items) s ≡ true) }
{
    match text_of(cell) {
        Some(text) => note_node(nodes, text.as_str()),
        None => Ok(()),
    }
}

fn note_cell<'f>(nodes: &mut Vec<&'f str>, row: &'f [Cell]) -> Result<(), AllocError>
    ensures { OnOk result ((s : List ℕ) → (equal_cells (text_cell s ∷ []) (cells_of row.now) || is_among (texts_seen nodes.old.items) s) ≡ true
        → is_among (texts_seen nodes.new.items) s ≡ true) }
{
    match row {
        [] => Ok(()),
        [cell] => note_text(nodes, cell),
        [_, _, ..] => Ok(()),
    }
}

// The texts of rows of one cell.
fn by_cell<'f>(alloc: Global, rows: &'f [Cells]) -> Result<Vec<&'f str>, AllocError>
    ensures { IfOk result (λ nodes. (s : List ℕ) → list_any (equal_cells (text_cell s ∷ [])) rows.now ≡ true → is_among (texts_seen nodes.items) s ≡ true) }
{
    let mut nodes = Vec::new(alloc);
    'noting: for row in rows {
        note_cell(&mut nodes, row.as_slice())?;
    }
    Ok(nodes)
}

// The nodes of an entity's rows.
fn by_node<'f>(
    alloc: Global,
    entity: Option<Entity>,
    rows: &'f [Cells],
) -> Result<Vec<&'f str>, AllocError>
    ensures { IfOk result (λ nodes. (s : List ℕ) → list_any (λ row. bytes_eq s (node_in entity row)) rows.now ≡ true
        → is_among (texts_seen nodes.items) s ≡ true) }
{
    let mut nodes = Vec::new(alloc);
    'noting: for row in rows {
        note_node(&mut nodes, node_in(entity, row.as_slice()))?;
    }
    Ok(nodes)
}

fn nodes_of<'f>(alloc: Global, join: Join, found: &'f [Known]) -> Result<Vec<&'f str>, AllocError>
    ensures { IfOk result (λ nodes. HasNodes found.now join (texts_seen nodes.items)) }
{
    match join {
        Join::ByCell(at) => match found.get(at) {
            Some(known) => by_cell(alloc, known.rows.as_slice()),
            None => Ok(Vec::new(alloc)),
        },
        Join::ByNode(entity, at) => match found.get(at) {
            Some(known) => by_node(alloc, entity, known.rows.as_slice()),
            None => Ok(Vec::new(alloc)),
        },
    }
}

fn no_nodes<'f>(alloc: Global) -> Nodes<'f>
    ensures { result.joined ≡ false }
{
    Nodes {
        joined: false,
        list: Vec::new(alloc),
    }
}

// The nodes of the level, if they are so few that asking for each is cheaper than reading all.
fn few_nodes<'f>(
    alloc: Global,
    tables: &Tables,
    join: Join,
    found: &'f [Known],
) -> Result<Nodes<'f>, AllocError>
    ensures { IfOk result (λ nodes. nodes.joined ≡ true → HasNodes found.now join (texts_seen nodes.list.items)) }
{
    let list = nodes_of(alloc, join, found)?;
    let joined = list.len() <= tables.count(Entity::Nodes) / 2;
    Ok(Nodes { joined, list })
}

/// The nodes to which a level with these steps is limited by the levels before it.
pub fn nodes_for<'f>(
    alloc: Global,
    tables: &Tables,
    reading: Reading,
    steps: &[Step<'_>],
    found: &'f [Known],
) -> Result<Nodes<'f>, AllocError>
    ensures { IfOk result (λ nodes. nodes.joined ≡ true → Joins (step_join (steps_of steps.now)) found.now (texts_seen nodes.list.items)) }
{
    match reading {
        Reading::All => Ok(no_nodes(alloc)),
        Reading::InReach => match join_of(alloc, steps)? {
            Some(join) => few_nodes(alloc, tables, join, found),
            None => Ok(no_nodes(alloc)),
        },
    }
}
