//! Finds the values that the fields of a filter name.
ghost use Rattle.std.specs.Prelude.{◌≡◌, Some, unwrap_or, codes, slice_get};
ghost use Rattle.std.specs.List.{find};
ghost use Rattle.std.specs.Option.{option_and_then, option_map};
ghost use Rattle.same_text.specs.text_spec.Json.{null, find_member};
ghost use Rattle.same_text.specs.json_tree.Tree.{json_of};
ghost use Rattle.fleet_tables.specs.fleet_rows.Cell.{plain, cells_of};
ghost use Rattle.fleet_tables.specs.fleet_rows.declared.row.Entity.TheVariants as entities;
ghost use Rattle.query_plan.specs.means_spec.Cells.{cell_in, has_text, is_fact, member_in, field_cell};
ghost use Rattle.query_plan.specs.means_spec.World.{World};
ghost use Rattle.paging_text.specs.Shown.{cell_or_null};
ghost use Rattle.query_rows.specs.Indexed.{passes_at};
ghost use Rattle.query_rows.specs.Known.{AreByNode};
ghost use Rattle.row_views.specs.Seen.{seen_value};

use crate::cells::{node_seen, text_in};
use crate::index::{Index, places_under};
use crate::known::FactRows;
use fleet_tables::fleet_rows::{Cell, Cells, Entity};
use query_plan::query_spec::Field;
use row_views::{Seen, View, cell_in, seen_of};
use same_text::json_tree::{Json, Members};

fn member<'a>(name: &str, members: &'a Members) -> Seen<'a>
    ensures { seen_value result ≡ plain (unwrap_or (find_member name.now members.now) null) }
{
    for i in 0..members.len() {
        let (key, value) = members.pair(i);
        if name == key.as_str() {
            return Seen::Value(value);
        }
    }
    Seen::Null
}

// The value of the parameter, if the value is an object with it.
fn member_in<'a>(name: &str, seen: Seen<'a>) -> Seen<'a>
    ensures { seen_value result ≡ member_in name.now (seen_value seen.entry) }
{
    match seen {
        Seen::Cell(Cell::Plain(json)) => member_of(name, json),
        Seen::Value(json) => member_of(name, json),
        _ => Seen::Null,
    }
}

fn member_of<'a>(name: &str, json: &'a Json) -> Seen<'a>
    ensures { seen_value result ≡ member_in name.now (plain (json_of json.now)) }
{
    match json {
        Json::Map(members) => member(name, members),
        _ => Seen::Null,
    }
}

fn has_text(text: &str, cell: Option<&Cell>) -> bool
    ensures { result ≡ has_text text.now (cell_or_null cell.entry) }
{
    match text_in(cell) {
        Some(found) => text == found.as_str(),
        None => false,
    }
}

// Whether the row of facts has this node and this name.
fn is_fact(node: &str, name: &str, row: &[Cell]) -> bool
    ensures { result ≡ is_fact node.now name.now (cells_of row.now) }
{
    let facts = Some(Entity::Facts);
    has_text(node, cell_in(facts, "certname", row)) && has_text(name, cell_in(facts, "name", row))
}

// Whether the row at this index does.
fn is_fact_there(facts: &[Cells], place: usize, node: &str, name: &str) -> bool
    ensures { result ≡ passes_at (is_fact node.now name.now) facts.now place }
{
    match facts.get(place) {
        Some(row) => is_fact(node, name, row.as_slice()),
        None => false,
    }
}

// The first of these indices whose row does.
fn fact_at(facts: &[Cells], places: &[usize], node: &str, name: &str) -> Option<usize>
    ensures { result ≡ find (passes_at (is_fact node.now name.now) facts.now) places.now }
{
    for place in places {
        if is_fact_there(facts, *place, node, name) {
            return Some(*place);
        }
    }
    None
}

// The index of the first such row, found by the index of nodes.
fn fact_place(facts: &[Cells], nodes: &Index, node: &str, name: &str) -> Option<usize>
    requires { AreByNode facts.now nodes.now }
    ensures { option_and_then (slice_get facts.now) result ≡ find (is_fact node.now name.now) facts.now }
{
    fact_at(facts, places_under(nodes, node.as_bytes()), node, name)
}

// The value of the fact at this index.
fn value_at(facts: &[Cells], place: usize) -> Option<&Cell>
    ensures { cell_or_null result ≡ unwrap_or (option_map (cell_in (Some entities.Facts) (codes "value")) (slice_get facts.now place)) (plain null) }
{
    match facts.get(place) {
        Some(row) => cell_in(Some(Entity::Facts), "value", row.as_slice()),
        None => None,
    }
}

// The value of a node's fact, or None.
fn fact_of<'a>(facts: &'a FactRows, node: &str, name: &str) -> Option<&'a Cell>
    ensures { cell_or_null result ≡ unwrap_or (option_map (cell_in (Some entities.Facts) (codes "value"))
        (find (is_fact node.now name.now) facts.now)) (plain null) }
{
    let rows = facts.rows.as_slice();
    match fact_place(rows, &facts.nodes, node, name) {
        Some(place) => value_at(rows, place),
        None => None,
    }
}

/// The value that the field names in a row. `facts` has the rows of facts. `tag` and `node_state` name nothing.
pub(crate) fn field_cell<'a>(
    facts: &'a FactRows,
    entity: Option<Entity>,
    field: &Field,
    row: &'a View<'_>,
) -> Seen<'a>
    ensures { (w : World) → w.rows entities.Facts ≡ facts.now → seen_value result ≡ field_cell w entity field.now row.now }
{
    match field {
        Field::Column(name) => row.seen(entity, name.text.as_str()),
        Field::Parameter(name) => { member_in(name.text.as_str(), row.seen(entity, "parameters")) }
        Field::Fact(name) => seen_of(fact_of(facts, node_seen(entity, row), name.text.as_str())),
        Field::Tag(_) => Seen::Null,
        Field::NodeState(_) => Seen::Null,
    }
}
