//! Compares values that are seen as cells are compared.
ghost use Rattle.std.specs.Prelude.{◌≡◌};
ghost use Rattle.fleet_tables.specs.fleet_rows.Cell.{cell_cmp, cell_of, plain};
ghost use Rattle.same_text.specs.json_tree.Tree.{json_of};
ghost use Rattle.same_text.specs.text_spec.Json.{null, string};
ghost use Rattle.same_text.specs.text_spec.Order.{order};
ghost use Rattle.row_views.specs.Seen.{seen_value};

use fleet_tables::fleet_rows::Cell;
use fleet_tables::stamp_time::Moment;
use row_views::Seen;
use same_text::json_tree::{Json, Text, order};
use std::cmp::Ordering;

// The order of a text relative to a JSON value.
fn text_order(text: &Text, json: &Json) -> Ordering
    ensures { result ≡ order (string text.now) (json_of json.now) }
{
    match json {
        Json::Null => Ordering::Greater,
        Json::Bool(_) => Ordering::Greater,
        Json::Num(_) => Ordering::Greater,
        Json::Text(other) => text.as_str().cmp(other.as_str()),
        Json::List(_) => Ordering::Less,
        Json::Map(_) => Ordering::Less,
    }
}

// The order of a text relative to a cell.
fn text_order_in(text: &Text, cell: &Cell) -> Ordering
    ensures { result ≡ cell_cmp (plain (string text.now)) (cell_of cell.now) }
{
    match cell {
        Cell::Stamp(_) => Ordering::Greater,
        Cell::Plain(json) => text_order(text, json),
    }
}

// The order of a JSON value relative to a cell.
fn value_order_in(json: &Json, cell: &Cell) -> Ordering
    ensures { result ≡ cell_cmp (plain (json_of json.now)) (cell_of cell.now) }
{
    match cell {
        Cell::Stamp(_) => match json {
            Json::Null => Ordering::Less,
            _ => Ordering::Greater,
        },
        Cell::Plain(other) => order(json, other),
    }
}

// The order of null relative to a cell.
fn null_order_in(cell: &Cell) -> Ordering
    ensures { result ≡ cell_cmp (plain null) (cell_of cell.now) }
{
    match cell {
        Cell::Plain(Json::Null) => Ordering::Equal,
        _ => Ordering::Less,
    }
}

// The order of a value relative to a cell.
fn order_to_cell(seen: &Seen<'_>, cell: &Cell) -> Ordering
    ensures { result ≡ cell_cmp (seen_value seen.now) (cell_of cell.now) }
{
    match seen {
        Seen::Cell(first) => first.order(cell),
        Seen::Value(json) => value_order_in(json, cell),
        Seen::Text(text) => text_order_in(text, cell),
        Seen::Flag(flag) => Cell::Plain(Json::Bool(*flag)).order(cell),
        Seen::Stamp(nanos) => Cell::Stamp(Moment::from_nanosecond(*nanos)).order(cell),
        Seen::Null => null_order_in(cell),
    }
}

// The order of a cell relative to a JSON value.
fn cell_order_to(cell: &Cell, json: &Json) -> Ordering
    ensures { result ≡ cell_cmp (cell_of cell.now) (plain (json_of json.now)) }
{
    match cell {
        Cell::Stamp(_) => match json {
            Json::Null => Ordering::Greater,
            _ => Ordering::Less,
        },
        Cell::Plain(first) => order(first, json),
    }
}

// The order of a JSON value relative to a text.
fn value_order_to_text(json: &Json, text: &Text) -> Ordering
    ensures { result ≡ order (json_of json.now) (string text.now) }
{
    match json {
        Json::Null => Ordering::Less,
        Json::Bool(_) => Ordering::Less,
        Json::Num(_) => Ordering::Less,
        Json::Text(first) => first.as_str().cmp(text.as_str()),
        Json::List(_) => Ordering::Greater,
        Json::Map(_) => Ordering::Greater,
    }
}

// The order of a cell relative to a text.
fn cell_order_to_text(cell: &Cell, text: &Text) -> Ordering
    ensures { result ≡ cell_cmp (cell_of cell.now) (plain (string text.now)) }
{
    match cell {
        Cell::Stamp(_) => Ordering::Less,
        Cell::Plain(json) => value_order_to_text(json, text),
    }
}

// The order of a value relative to a JSON value.
fn order_to_value(seen: &Seen<'_>, json: &Json) -> Ordering
    ensures { result ≡ cell_cmp (seen_value seen.now) (plain (json_of json.now)) }
{
    match seen {
        Seen::Cell(first) => cell_order_to(first, json),
        Seen::Value(first) => order(first, json),
        Seen::Text(text) => text_order(text, json),
        Seen::Flag(flag) => order(&Json::Bool(*flag), json),
        Seen::Stamp(nanos) => cell_order_to(&Cell::Stamp(Moment::from_nanosecond(*nanos)), json),
        Seen::Null => match json {
            Json::Null => Ordering::Equal,
            _ => Ordering::Less,
        },
    }
}

// The order of a value relative to a text.
fn order_to_text(seen: &Seen<'_>, text: &Text) -> Ordering
    ensures { result ≡ cell_cmp (seen_value seen.now) (plain (string text.now)) }
{
    match seen {
        Seen::Cell(first) => cell_order_to_text(first, text),
        Seen::Value(first) => value_order_to_text(first, text),
        Seen::Text(first) => first.as_str().cmp(text.as_str()),
        Seen::Flag(_) => Ordering::Less,
        Seen::Stamp(_) => Ordering::Less,
        Seen::Null => Ordering::Less,
    }
}

// The order of a value relative to null.
fn order_to_null(seen: &Seen<'_>) -> Ordering
    ensures { result ≡ cell_cmp (seen_value seen.now) (plain null) }
{
    match seen {
        Seen::Cell(Cell::Plain(Json::Null)) => Ordering::Equal,
        Seen::Value(Json::Null) => Ordering::Equal,
        Seen::Null => Ordering::Equal,
        _ => Ordering::Greater,
    }
}

/// Compares two values as cells are compared.
pub fn seen_order(a: &Seen<'_>, b: &Seen<'_>) -> Ordering
    ensures { result ≡ cell_cmp (seen_value a.now) (seen_value b.now) }
{
    match b {
        Seen::Cell(cell) => order_to_cell(a, cell),
        Seen::Value(json) => order_to_value(a, json),
        Seen::Text(text) => order_to_text(a, text),
        Seen::Flag(flag) => order_to_value(a, &Json::Bool(*flag)),
        Seen::Stamp(nanos) => order_to_cell(a, &Cell::Stamp(Moment::from_nanosecond(*nanos))),
        Seen::Null => order_to_null(a),
    }
}
