//! Reads the orders that `order_by` asks for.
ghost use Rattle.std.specs.Prelude.{◌≡◌, IfOk, Some, map};
ghost use Rattle.std.specs.Option.{option_map, option_copied};
ghost use Rattle.json_read.specs.json_tree.Tree.{json_of, jsons};
ghost use Rattle.ast_tree.specs.fleet_rows.Columns.{column_name};
ghost use Rattle.means_spec.specs.OutRows.{names_of};
ghost use Rattle.means_spec.specs.Shown.{output_names};
ghost use Rattle.paging_params.specs.Params.{value_of, url};
ghost use Rattle.paging_params.specs.Paging.{descends_of, descends_in, is_among, column_in, is_of_order, has_no_other, order_by, order_of_members};
ghost use Rattle.paging_params.specs.Paging.{order_of, orders_among, orders_of, AreOrders};
ghost use Rattle.paging_params.specs.Told.{spells_nothing};

use crate::params::Param;
use ast_tree::fleet_rows::{Column, Entity};
use ast_tree::query_spec::{Name, Order, Orders, Place, Selection};
use ast_tree::{Level, entity_of, has_output};
use json_read::json_tree::{Json, Members, Text};
use json_read::{ReadFault, find, read};
use std::alloc::{AllocError, Global};

fn is_column(columns: &[Column], name: &str) -> bool
    ensures { result ≡ is_among (map column_name columns.now) name.now }
{
    for column in columns {
        if column.name() == name {
            return true;
        }
    }
    false
}

fn is_shown(entity: Option<Entity>, shown: &Option<Selection>, name: &str) -> bool
    ensures { result ≡ is_among (output_names entity shown.now) name.now }
{
    match shown {
        Some(selection) => has_output(selection.as_slice(), name),
        None => match entity {
            Some(entity) => is_column(entity.columns(), name),
            None => false,
        },
    }
}

// Whether the output has a column with this name.
fn is_output(level: &Level, name: &str) -> bool
    ensures { result ≡ is_among (names_of level.now) name.now }
{
    let (entity, shown, _, _, _) = level.parts();
    is_shown(entity_of(entity.text.as_str()), shown, name)
}

// The text of the column, if the output has that column.
fn column_in<'a>(level: &Level, field: Option<&'a Json>) -> Option<&'a Text>
    ensures { option_copied result ≡ column_in (names_of level.now) (option_map (λ j. json_of j.now) field.entry) }
{
    match field {
        Some(Json::Text(text)) => if is_output(level, text.as_str()) {
            Some(text)
        } else {
            None
        },
        _ => None,
    }
}

fn descends_of(text: &str) -> Option<bool>
    ensures { result ≡ descends_of text.now }
{
    if text == "asc" {
        Some(false)
    } else if text == "desc" {
        Some(true)
    } else {
        None
    }
}

fn descends_in(order: Option<&Json>) -> Option<bool>
    ensures { result ≡ descends_in (option_map (λ j. json_of j.now) order.entry) }
{
    match order {
        None => Some(false),
        Some(Json::Text(text)) => descends_of(text.as_str()),
        Some(_) => None,
    }
}

fn is_of_order(key: &str) -> bool
    ensures { result ≡ is_of_order key.now }
{
    key == "field" || key == "order"
}

fn has_no_other(members: &Members) -> bool
    ensures { result ≡ has_no_other members.now }
{
    let mut at = 0;
    'members: while at < members.len() {
        let (key, _) = members.pair(at);
        if !is_of_order(key.as_str()) {
            return false;
        }
        at += 1;
    }
    true
}

fn order_by(
    alloc: Global,
    column: Option<&Text>,
    descends: Option<bool>,
) -> Result<Option<Order>, AllocError>
    ensures { IfOk result (λ order. order ≡ order_by (option_copied column.entry) descends) }
{
    match (column, descends) {
        (Some(column), Some(descends)) => Ok(Some(Order {
            column: Name {
                text: Text::from_str(alloc, column.as_str())?,
                place: Place::new(alloc),
            },
            descends,
        })),
        _ => Ok(None),
    }
}

fn order_of_members(
    alloc: Global,
    level: &Level,
    members: &Members,
) -> Result<Option<Order>, AllocError>
    ensures { IfOk result (λ order. order ≡ order_of_members (names_of level.now) members.now) }
{
    if !has_no_other(members) {
        return Ok(None);
    }
    let column = column_in(level, find(members, "field"));
    let descends = descends_in(find(members, "order"));
    order_by(alloc, column, descends)
}

fn order_of(alloc: Global, level: &Level, json: &Json) -> Result<Option<Order>, AllocError>
    ensures { IfOk result (λ order. order ≡ order_of (names_of level.now) (json_of json.now)) }
{
    match json {
        Json::Map(members) => order_of_members(alloc, level, members),
        _ => Ok(None),
    }
}

fn orders_among(alloc: Global, level: &Level, list: &[Json]) -> Result<Option<Orders>, AllocError>
    ensures { IfOk result (λ orders. orders ≡ orders_among (names_of level.now) (jsons list.now)) }
{
    let mut orders = Orders::new(alloc);
    for json in list {
        match order_of(alloc, level, json)? {
            Some(order) => orders.push(order)?,
            None => return Ok(None),
        }
    }
    Ok(Some(orders))
}

fn orders_of(alloc: Global, level: &Level, json: &Json) -> Result<Option<Orders>, AllocError>
    ensures { IfOk result (λ orders. orders ≡ orders_of (names_of level.now) (json_of json.now)) }
{
    match json {
        Json::List(items) => orders_among(alloc, level, items.as_slice()),
        _ => Ok(None),
    }
}

// Whether the fault means that the text spells no JSON value. Otherwise memory ran out.
fn spells_nothing(fault: ReadFault) -> bool
    ensures { result ≡ spells_nothing fault }
{
    match fault {
        ReadFault::NotJson { .. } => true,
        ReadFault::TooDeep { .. } => true,
        ReadFault::Memory => false,
    }
}

// The orders that the text of a URL spells.
fn orders_in(alloc: Global, level: &Level, text: &str) -> Result<Option<Orders>, AllocError>
    ensures { IfOk result (AreOrders (names_of level.now) (Some (url text.now))) }
{
    match read(alloc, text.as_bytes()) {
        Ok(json) => orders_of(alloc, level, &json),
        Err(fault) => {
            if spells_nothing(fault) {
                Ok(None)
            } else {
                Err(AllocError)
            }
        }
    }
}

// The orders that the parameter's value asks for.
fn given_orders(alloc: Global, level: &Level, value: &Param) -> Result<Option<Orders>, AllocError>
    ensures { IfOk result (AreOrders (names_of level.now) (Some (value_of value.now))) }
{
    match value {
        Param::Url(text) => orders_in(alloc, level, text.as_str()),
        Param::Body(json) => orders_of(alloc, level, json),
    }
}

/// The orders that the parameter asks for: an empty list if it is missing, None if its value is no list of orders.
pub(crate) fn read_orders(
    alloc: Global,
    level: &Level,
    value: Option<&Param>,
) -> Result<Option<Orders>, AllocError>
    ensures { IfOk result (AreOrders (names_of level.now) (option_map (λ p. value_of p.now) value.entry)) }
{
    match value {
        None => Ok(Some(Orders::new(alloc))),
        Some(value) => given_orders(alloc, level, value),
    }
}
