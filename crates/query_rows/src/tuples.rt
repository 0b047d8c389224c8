//! Compares tuples of cells with rows.
ghost use Rattle.std.specs.Prelude.{◌≡◌, ◌++◌, map, IfOk, OnOk};
ghost use Rattle.std.specs.List.{list_any};
ghost use Rattle.std.specs.Str.{bytes_eq};
ghost use Rattle.fleet_tables.specs.fleet_rows.Cell.{cell_of, cells_of};
ghost use Rattle.query_plan.specs.means_spec.Cells.{equal_cells, same_cell, same_cells, is_null_cell, node_in};
ghost use Rattle.query_rows.specs.Indexed.{IsIndexOf, passes_at};
ghost use Rattle.query_rows.specs.Marked.{cell_text, key_text};
ghost use Rattle.query_rows.specs.Scenes.{seen_cell};

use crate::cells::{node_in, node_seen};
use crate::compare::{is_null, same_cell};
use crate::index::{Index, places_under};
use crate::known::{Known, Lookup};
use crate::marks::append_seen;
use crate::scene::{Scene, seen_in};
use fleet_tables::fleet_rows::{Cell, Cells, Entity};
use query_plan::query_spec::Field;
use row_views::View;
use std::alloc::AllocError;

fn is_null_at(scene: &Scene, entity: Option<Entity>, field: &Field, row: &View<'_>) -> bool
    ensures { result ≡ is_null_cell (seen_cell scene.now entity row.now field.now) }
{
    is_null(&seen_in(scene, entity, field, row))
}

fn same_at(
    scene: &Scene,
    entity: Option<Entity>,
    field: &Field,
    row: &View<'_>,
    cell: &Cell,
) -> bool
    ensures { result ≡ same_cell (seen_cell scene.now entity row.now field.now) (cell_of cell.now) }
{
    same_cell(&seen_in(scene, entity, field, row), cell)
}

fn has_null(scene: &Scene, entity: Option<Entity>, fields: &[Field], row: &View<'_>) -> bool
    ensures { result ≡ list_any is_null_cell (map (seen_cell scene.now entity row.now) fields.now) }
{
    for field in fields {
        if is_null_at(scene, entity, field, row) {
            return true;
        }
    }
    false
}

// Whether the cells of the fields are the same as the other row's cells, one by one.
fn is_row(
    scene: &Scene,
    entity: Option<Entity>,
    fields: &[Field],
    row: &View<'_>,
    other: &[Cell],
) -> bool
    ensures { result ≡ same_cells (map (seen_cell scene.now entity row.now) fields.now) (cells_of other.now) }
{
    match fields {
        [field, fields @ ..] => match other {
            [cell, other @ ..] => {
                same_at(scene, entity, field, row, cell)
                    && is_row(scene, entity, fields, row, other)
            }
            [] => false,
        },
        [] => other.is_empty(),
    }
}

fn is_some_row(
    scene: &Scene,
    entity: Option<Entity>,
    fields: &[Field],
    row: &View<'_>,
    rows: &[Cells],
) -> bool
    ensures { result ≡ list_any (same_cells (map (seen_cell scene.now entity row.now) fields.now)) rows.now }
{
    for other in rows {
        if is_row(scene, entity, fields, row, other.as_slice()) {
            return true;
        }
    }
    false
}

// Whether they are the same as those of the row at this index.
fn is_row_there(
    scene: &Scene,
    entity: Option<Entity>,
    fields: &[Field],
    row: &View<'_>,
    rows: &[Cells],
    place: usize,
) -> bool
    ensures { result ≡ passes_at (same_cells (map (seen_cell scene.now entity row.now) fields.now)) rows.now place }
{
    match rows.get(place) {
        Some(other) => is_row(scene, entity, fields, row, other.as_slice()),
        None => false,
    }
}

// Whether they are the same as those of a row at one of these indices.
fn is_row_at(
    scene: &Scene,
    entity: Option<Entity>,
    fields: &[Field],
    row: &View<'_>,
    rows: &[Cells],
    places: &[usize],
) -> bool
    ensures { result ≡ list_any (passes_at (same_cells (map (seen_cell scene.now entity row.now) fields.now)) rows.now) places.now }
{
    for place in places {
        if is_row_there(scene, entity, fields, row, rows, *place) {
            return true;
        }
    }
    false
}

fn append_at(
    out: &mut Vec<u8>,
    scene: &Scene,
    entity: Option<Entity>,
    field: &Field,
    row: &View<'_>,
) -> Result<(), AllocError>
    ensures { OnOk result (out.new.items ≡ out.old.items ++ cell_text (seen_cell scene.now entity row.now field.now)) }
{
    append_seen(scene.alloc, out, &seen_in(scene, entity, field, row))
}

// The text of the cells of the fields.
fn text_of_fields(
    scene: &Scene,
    entity: Option<Entity>,
    fields: &[Field],
    row: &View<'_>,
) -> Result<Vec<u8>, AllocError>
    ensures { IfOk result (λ text. text.items ≡ key_text (map (seen_cell scene.now entity row.now) fields.now)) }
{
    let mut text = Vec::new(scene.alloc);
    for field in fields {
        append_at(&mut text, scene, entity, field, row)?;
        text.push(b',')?;
    }
    Ok(text)
}

// Whether the cells of the fields are those of some row, by the index of the rows.
fn is_row_of(
    scene: &Scene,
    entity: Option<Entity>,
    fields: &[Field],
    row: &View<'_>,
    rows: &[Cells],
    index: &Index,
) -> Result<bool, AllocError>
    requires { IsIndexOf key_text rows.now index.now }
    ensures { IfOk result (λ b. b ≡ list_any (same_cells (map (seen_cell scene.now entity row.now) fields.now)) rows.now) }
{
    let text = text_of_fields(scene, entity, fields, row)?;
    let places = places_under(index, text.as_slice());
    Ok(is_row_at(scene, entity, fields, row, rows, places))
}

fn is_known_row(
    scene: &Scene,
    entity: Option<Entity>,
    fields: &[Field],
    row: &View<'_>,
    known: &Known,
) -> Result<bool, AllocError>
    ensures { IfOk result (λ b. b ≡ list_any (same_cells (map (seen_cell scene.now entity row.now) fields.now)) known.now) }
{
    let rows = known.rows.as_slice();
    match &known.sought {
        Lookup::ByCells(index) => is_row_of(scene, entity, fields, row, rows, index),
        _ => Ok(is_some_row(scene, entity, fields, row, rows)),
    }
}

/// Whether the cells of the fields are those of some row. A tuple with a null cell equals no row.
pub(crate) fn is_among(
    scene: &Scene,
    entity: Option<Entity>,
    fields: &[Field],
    row: &View<'_>,
    known: &Known,
) -> Result<bool, AllocError>
    ensures { IfOk result (λ b. b ≡ list_any (equal_cells (map (seen_cell scene.now entity row.now) fields.now)) known.now) }
{
    if has_null(scene, entity, fields, row) {
        return Ok(false);
    }
    is_known_row(scene, entity, fields, row, known)
}

fn is_of_node(other: Option<Entity>, row: &[Cell], node: &str) -> bool
    ensures { result ≡ bytes_eq (node_in other (cells_of row.now)) node.now }
{
    node_in(other, row) == node
}

fn is_some_of_node(other: Option<Entity>, rows: &[Cells], node: &str) -> bool
    ensures { result ≡ list_any (λ x. bytes_eq (node_in other x) node.now) rows.now }
{
    for row in rows {
        if is_of_node(other, row.as_slice(), node) {
            return true;
        }
    }
    false
}

fn is_node_there(other: Option<Entity>, rows: &[Cells], place: usize, node: &str) -> bool
    ensures { result ≡ passes_at (λ x. bytes_eq (node_in other x) node.now) rows.now place }
{
    match rows.get(place) {
        Some(row) => is_of_node(other, row.as_slice(), node),
        None => false,
    }
}

fn is_of_node_at(other: Option<Entity>, rows: &[Cells], places: &[usize], node: &str) -> bool
    ensures { result ≡ list_any (passes_at (λ x. bytes_eq (node_in other x) node.now) rows.now) places.now }
{
    for place in places {
        if is_node_there(other, rows, *place, node) {
            return true;
        }
    }
    false
}

// Whether some row belongs to the node, by the index of the rows.
fn is_node_of(other: Option<Entity>, rows: &[Cells], index: &Index, node: &str) -> bool
    requires { IsIndexOf (node_in other) rows.now index.now }
    ensures { result ≡ list_any (λ x. bytes_eq (node_in other x) node.now) rows.now }
{
    is_of_node_at(other, rows, places_under(index, node.as_bytes()), node)
}

fn is_known_node(other: Option<Entity>, known: &Known, node: &str) -> bool
    ensures { result ≡ list_any (λ x. bytes_eq (node_in other x) node.now) known.now }
{
    let rows = known.rows.as_slice();
    match &known.sought {
        Lookup::ByNode(entity, index) if *entity == other => is_node_of(other, rows, index, node),
        _ => is_some_of_node(other, rows, node),
    }
}

/// Whether some of the known rows belongs to the same node as this row.
pub(crate) fn shares_node(
    other: Option<Entity>,
    known: &Known,
    entity: Option<Entity>,
    row: &View<'_>,
) -> bool
    ensures { result ≡ list_any (λ x. bytes_eq (node_in other x) (node_in entity row.now)) known.now }
{
    is_known_node(other, known, node_seen(entity, row))
}
