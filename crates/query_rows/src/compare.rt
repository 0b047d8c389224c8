//! Compares cells with literals and with other cells.
ghost use Rattle.std.specs.Prelude.{◌≡◌, false};
ghost use Rattle.std.specs.List.{list_any};
ghost use Rattle.std.specs.Option.{option_map, option_map_or};
ghost use Rattle.std.specs.Ordering.{int_cmp, int_eq, is_some_and};
ghost use Rattle.same_text.specs.text_spec.Order.{same};
ghost use Rattle.same_text.specs.json_tree.Tree.{json_of, jsons};
ghost use Rattle.same_text.specs.text_spec.Json.{boolean, string};
ghost use Rattle.fleet_tables.specs.fleet_rows.Cell.{cell_of, plain, stamp};
ghost use Rattle.query_plan.specs.means_spec.Cells.{scalar_value, moment_of, equals, order_of, meets, compares, has_tag, has_state, same_cell};
ghost use Rattle.query_plan.specs.means_spec.Cells.{same_cells, is_null_cell};
ghost use Rattle.query_plan.specs.query_spec.declared.parts.Scalar.TheVariants as literals;
ghost use Rattle.row_views.specs.Seen.{seen_value};

use fleet_tables::fleet_rows::Cell;
use fleet_tables::stamp_time::{Moment, read_stamp};
use query_plan::query_spec::{Op, Scalar};
use row_views::Seen;
use same_text::json_tree::{Json, Text, same};
use std::cmp::Ordering;

/// The moment of which the literal is a stamp.
pub(crate) fn moment_of(literal: &Scalar) -> Option<Moment>
    ensures { result ≡ moment_of literal.now }
{
    match literal {
        Scalar::Text(text) => read_stamp(text.as_str()),
        _ => None,
    }
}

fn is_moment(moment: Moment, literal: &Scalar) -> bool
    ensures { result ≡ option_map_or (int_eq moment) (moment_of literal.now) false }
{
    match moment_of(literal) {
        Some(other) => moment == other,
        None => false,
    }
}

fn is_value(json: &Json, literal: &Scalar) -> bool
    ensures { result ≡ same (json_of json.now) (scalar_value literal.now) }
{
    match (json, literal) {
        (Json::Text(a), Scalar::Text(b)) => a.as_str() == b.as_str(),
        (Json::Num(a), Scalar::Num(b)) => match a.compare(b) {
            Some(order) => order.is_eq(),
            None => false,
        },
        (Json::Bool(a), Scalar::Bool(b)) => *a == *b,
        _ => false,
    }
}

fn is_flag(flag: bool, literal: &Scalar) -> bool
    ensures { result ≡ same (boolean flag) (scalar_value literal.now) }
{
    match literal {
        Scalar::Bool(other) => flag == *other,
        _ => false,
    }
}

fn is_text(text: &Text, literal: &Scalar) -> bool
    ensures { result ≡ same (string text.now) (scalar_value literal.now) }
{
    match literal {
        Scalar::Text(other) => text.as_str() == other.as_str(),
        _ => false,
    }
}

/// Whether the value equals the literal: the same value or the same moment.
pub(crate) fn equals(seen: &Seen<'_>, literal: &Scalar) -> bool
    ensures { result ≡ equals (seen_value seen.now) literal.now }
{
    match seen {
        Seen::Cell(Cell::Stamp(moment)) => is_moment(*moment, literal),
        Seen::Cell(Cell::Plain(json)) => is_value(json, literal),
        Seen::Value(json) => is_value(json, literal),
        Seen::Text(text) => is_text(text, literal),
        Seen::Flag(flag) => is_flag(*flag, literal),
        Seen::Stamp(nanos) => is_moment(Moment::from_nanosecond(*nanos), literal),
        Seen::Null => false,
    }
}

fn moment_order(moment: Moment, literal: &Scalar) -> Option<Ordering>
    ensures { result ≡ option_map (int_cmp moment) (moment_of literal.now) }
{
    match moment_of(literal) {
        Some(other) => Some(moment.cmp(&other)),
        None => None,
    }
}

fn value_order(json: &Json, literal: &Scalar) -> Option<Ordering>
    ensures { result ≡ order_of (plain (json_of json.now)) literal.now }
{
    match (json, literal) {
        (Json::Num(a), Scalar::Num(b)) => a.compare(b),
        _ => None,
    }
}

fn order_of(seen: &Seen<'_>, literal: &Scalar) -> Option<Ordering>
    ensures { result ≡ order_of (seen_value seen.now) literal.now }
{
    match seen {
        Seen::Cell(Cell::Stamp(moment)) => moment_order(*moment, literal),
        Seen::Cell(Cell::Plain(json)) => value_order(json, literal),
        Seen::Value(json) => value_order(json, literal),
        Seen::Text(_) => None,
        Seen::Flag(_) => None,
        Seen::Stamp(nanos) => moment_order(Moment::from_nanosecond(*nanos), literal),
        Seen::Null => None,
    }
}

fn meets(op: Op, order: Ordering) -> bool
    ensures { result ≡ meets op order }
{
    match op {
        Op::Equal => order.is_eq(),
        Op::Less => order.is_lt(),
        Op::AtMost => !order.is_gt(),
        Op::More => order.is_gt(),
        Op::AtLeast => !order.is_lt(),
    }
}

fn is_ordered(op: Op, seen: &Seen<'_>, literal: &Scalar) -> bool
    ensures { result ≡ is_some_and (meets op) (order_of (seen_value seen.now) literal.now) }
{
    match order_of(seen, literal) {
        Some(order) => meets(op, order),
        None => false,
    }
}

/// Whether the comparison holds.
pub(crate) fn compares(op: Op, seen: &Seen<'_>, literal: &Scalar) -> bool
    ensures { result ≡ compares op (seen_value seen.now) literal.now }
{
    match op {
        Op::Equal => equals(seen, literal),
        Op::Less | Op::AtMost | Op::More | Op::AtLeast => is_ordered(op, seen, literal),
    }
}

fn has_text(items: &[Json], text: &Text) -> bool
    ensures { result ≡ list_any (same (string text.now)) (jsons items.now) }
{
    for item in items {
        if let Json::Text(other) = item {
            if text.as_str() == other.as_str() {
                return true;
            }
        }
    }
    false
}

/// Whether some tag is this text.
pub(crate) fn has_tag(literal: &Scalar, seen: &Seen<'_>) -> bool
    ensures { result ≡ has_tag literal.now (seen_value seen.now) }
{
    match literal {
        Scalar::Text(text) => match seen {
            Seen::Cell(Cell::Plain(json)) => is_tag(json, text),
            Seen::Value(json) => is_tag(json, text),
            _ => false,
        },
        _ => false,
    }
}

fn is_tag(json: &Json, text: &Text) -> bool
    ensures { result ≡ has_tag (literals.Text text.now) (plain (json_of json.now)) }
{
    match json {
        Json::List(items) => has_text(items.as_slice(), text),
        _ => false,
    }
}

/// Whether the node is in the state with this name.
pub(crate) fn has_state(inactive: bool, literal: &Scalar) -> bool
    ensures { result ≡ has_state inactive literal.now }
{
    match literal {
        Scalar::Text(text) => match text.as_str() {
            "active" => !inactive,
            "inactive" => inactive,
            _ => true,
        },
        _ => false,
    }
}

/// Whether the value is null.
pub fn is_null(seen: &Seen<'_>) -> bool
    ensures { result ≡ is_null_cell (seen_value seen.now) }
{
    match seen {
        Seen::Cell(Cell::Plain(Json::Null)) => true,
        Seen::Value(Json::Null) => true,
        Seen::Null => true,
        _ => false,
    }
}

fn same_moment(moment: Moment, cell: &Cell) -> bool
    ensures { result ≡ same_cell (stamp moment) (cell_of cell.now) }
{
    match cell {
        Cell::Stamp(other) => moment == *other,
        Cell::Plain(_) => false,
    }
}

fn same_value(json: &Json, cell: &Cell) -> bool
    ensures { result ≡ same_cell (plain (json_of json.now)) (cell_of cell.now) }
{
    match cell {
        Cell::Plain(other) => same(json, other),
        Cell::Stamp(_) => false,
    }
}

fn same_as_text(text: &Text, cell: &Cell) -> bool
    ensures { result ≡ same_cell (plain (string text.now)) (cell_of cell.now) }
{
    match cell {
        Cell::Plain(Json::Text(other)) => text.as_str() == other.as_str(),
        _ => false,
    }
}

fn same_as_flag(flag: bool, cell: &Cell) -> bool
    ensures { result ≡ same_cell (plain (boolean flag)) (cell_of cell.now) }
{
    match cell {
        Cell::Plain(Json::Bool(other)) => flag == *other,
        _ => false,
    }
}

/// Whether the value is the same as a cell.
pub(crate) fn same_cell(seen: &Seen<'_>, cell: &Cell) -> bool
    ensures { result ≡ same_cell (seen_value seen.now) (cell_of cell.now) }
{
    match seen {
        Seen::Cell(Cell::Stamp(moment)) => same_moment(*moment, cell),
        Seen::Cell(Cell::Plain(json)) => same_value(json, cell),
        Seen::Value(json) => same_value(json, cell),
        Seen::Text(text) => same_as_text(text, cell),
        Seen::Flag(flag) => same_as_flag(*flag, cell),
        Seen::Stamp(nanos) => same_moment(Moment::from_nanosecond(*nanos), cell),
        Seen::Null => match cell {
            Cell::Plain(Json::Null) => true,
            _ => false,
        },
    }
}

fn same_json(seen: &Seen<'_>, json: &Json) -> bool
    ensures { result ≡ same_cell (seen_value seen.now) (plain (json_of json.now)) }
{
    match seen {
        Seen::Cell(Cell::Stamp(_)) => false,
        Seen::Cell(Cell::Plain(first)) => same(first, json),
        Seen::Value(first) => same(first, json),
        Seen::Text(text) => is_same_text(text, json),
        Seen::Flag(flag) => is_same_flag(*flag, json),
        Seen::Stamp(_) => false,
        Seen::Null => match json {
            Json::Null => true,
            _ => false,
        },
    }
}

fn is_same_flag(flag: bool, json: &Json) -> bool
    ensures { result ≡ same (boolean flag) (json_of json.now) }
{
    match json {
        Json::Bool(other) => flag == *other,
        _ => false,
    }
}

fn is_same_text(text: &Text, json: &Json) -> bool
    ensures { result ≡ same (string text.now) (json_of json.now) }
{
    match json {
        Json::Text(other) => text.as_str() == other.as_str(),
        _ => false,
    }
}

fn same_as_seen_text(seen: &Seen<'_>, text: &Text) -> bool
    ensures { result ≡ same_cell (seen_value seen.now) (plain (string text.now)) }
{
    match seen {
        Seen::Cell(Cell::Plain(Json::Text(first))) => first.as_str() == text.as_str(),
        Seen::Value(Json::Text(first)) => first.as_str() == text.as_str(),
        Seen::Text(first) => first.as_str() == text.as_str(),
        _ => false,
    }
}

/// Whether two values are the same.
pub fn same_seen(a: &Seen<'_>, b: &Seen<'_>) -> bool
    ensures { result ≡ same_cell (seen_value a.now) (seen_value b.now) }
{
    match b {
        Seen::Cell(cell) => same_cell(a, cell),
        Seen::Value(json) => same_json(a, json),
        Seen::Text(text) => same_as_seen_text(a, text),
        Seen::Flag(flag) => same_cell(a, &Cell::Plain(Json::Bool(*flag))),
        Seen::Stamp(nanos) => same_cell(a, &Cell::Stamp(Moment::from_nanosecond(*nanos))),
        Seen::Null => is_null(a),
    }
}
