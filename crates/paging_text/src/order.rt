//! Compares rows by columns.
ghost use Rattle.std.specs.Prelude.{◌≡◌};
ghost use Rattle.means_spec.specs.text_spec.Json.{null};
ghost use Rattle.means_spec.specs.fleet_rows.Cell.{cell_of, cells_of, plain};
ghost use Rattle.means_spec.specs.Cells.{cell_under};
ghost use Rattle.means_spec.specs.Paging.{order_cmp, orders_cmp};
ghost use Rattle.paging_text.specs.Shown.{cell_or_null};

use means_spec::fleet_rows::{Cell, Cells};
use means_spec::json_tree::{Json, Text};
use means_spec::query_spec::Order;
use std::cmp::Ordering;

// The row's cell in the column with this name, or None if there is no such column.
fn cell_under<'a>(names: &[Text], name: &str, cells: &'a [Cell]) -> Option<&'a Cell>
    ensures { cell_or_null result ≡ cell_under names.now name.now (cells_of cells.now) }
{
    match names {
        [first, names @ ..] => match cells {
            [cell, cells @ ..] => {
                if name == first.as_str() {
                    Some(cell)
                } else {
                    cell_under(names, name, cells)
                }
            }
            [] => None,
        },
        [] => None,
    }
}

fn or_null<'a>(cell: Option<&'a Cell>, nothing: &'a Cell) -> &'a Cell
    requires { cell_of nothing.now ≡ plain null }
    ensures { cell_of result.now ≡ cell_or_null cell.entry }
{
    match cell {
        Some(cell) => cell,
        None => nothing,
    }
}

fn order_cmp(names: &[Text], order: &Order, a: &[Cell], b: &[Cell]) -> Ordering
    ensures { result ≡ order_cmp names.now order.now (cells_of a.now) (cells_of b.now) }
{
    let nothing = Cell::Plain(Json::Null);
    let name = order.column.text.as_str();
    let first = or_null(cell_under(names, name, a), &nothing);
    let second = or_null(cell_under(names, name, b), &nothing);
    if order.descends {
        first.order(second).reverse()
    } else {
        first.order(second)
    }
}

fn orders_cmp(names: &[Text], orders: &[Order], a: &[Cell], b: &[Cell]) -> Ordering
    ensures { result ≡ orders_cmp names.now orders.now (cells_of a.now) (cells_of b.now) }
{
    for order in orders {
        match order_cmp(names, order, a, b) {
            Ordering::Equal => {}
            unequal => return unequal,
        }
    }
    Ordering::Equal
}

/// Compares two rows by these orders, the most significant first.
pub(crate) fn row_cmp(names: &[Text], orders: &[Order], a: &Cells, b: &Cells) -> Ordering
    ensures { result ≡ orders_cmp names.now orders.now a.now b.now }
{
    orders_cmp(names, orders, a.as_slice(), b.as_slice())
}
