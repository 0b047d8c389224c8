//! Reads limits, offsets and orders.
ghost use Rattle.std.specs.Prelude.{◌≡◌, ◌+◌, ◌<◌, ◌≤◌, length, Some, None, if◌then◌else◌};
ghost use Rattle.std.specs.Char.{is_ascii_digit};
ghost use Rattle.std.specs.List.{list_all};
ghost use Rattle.std.specs.Str.Parse.{digits_value};
ghost use Rattle.json_tree.specs.text_spec.Json.{items_of, item, no_items, array, string, levels, items_levels};
ghost use Rattle.json_tree.specs.Tree.{json_of, jsons};
ghost use Rattle.query_spec.specs.Ast as ast;
ghost use Rattle.query_spec.specs.Parts as part;
ghost use Rattle.ast_parts.specs.Gives.{Gives};

use crate::elements::{Elements, elements_of};
use crate::fault::FormFault;
use crate::parts::{copy_text, name, refused, split};
use crate::words::part_word;
use json_tree::{Json, Text};
use query_spec::{Name, Order, Orders, Paging, PartWord, Place};
use std::alloc::Global;

// Counts are below 2^63.
const LIMIT: u64 = 9223372036854775808;

fn all_digits(bytes: &[u8]) -> bool
    ensures { result ≡ list_all is_ascii_digit bytes.now }
{
    for byte in bytes {
        if !byte.is_ascii_digit() {
            return false;
        }
    }
    true
}

fn are_digits(spelling: &str) -> bool
    ensures { result ≡ part.are_digits spelling.now }
{
    let bytes = spelling.as_bytes();
    1 <= bytes.len() && bytes.len() <= 19 && all_digits(bytes)
}

fn number_of(spelling: &str) -> Option<u64>
    ensures { result ≡ (if part.are_digits spelling.now then Some (digits_value 10 spelling.now) else None) }
{
    if are_digits(spelling) {
        spelling.parse::<u64>().ok()
    } else {
        None
    }
}

fn below_limit(number: u64, place: Place) -> Result<u64, FormFault>
    ensures { Gives (λ n. n) result (ast.below_limit place number) }
{
    if number < LIMIT {
        Ok(number)
    } else {
        Err(FormFault::NoForm(place))
    }
}

fn count(json: &Json, place: Place) -> Result<u64, FormFault>
    ensures { Gives (λ n. n) result (ast.count_at place (json_of json.now)) }
{
    match json {
        Json::Num(number) => match number_of(number.spelling().as_str()) {
            Some(number) => below_limit(number, place),
            None => Err(FormFault::NoForm(place)),
        },
        _ => Err(FormFault::NoForm(place)),
    }
}

fn descends(json: &Json, place: Place) -> Result<bool, FormFault>
    ensures { Gives (λ b. b) result (ast.descends_at place (json_of json.now)) }
{
    match json {
        Json::Text(word) => {
            if word.as_str() == "asc" {
                Ok(false)
            } else if word.as_str() == "desc" {
                Ok(true)
            } else {
                Err(FormFault::NoForm(place))
            }
        }
        _ => Err(FormFault::NoForm(place)),
    }
}

fn directed(
    alloc: Global,
    column: &Json,
    direction: &Json,
    place: &Place,
) -> Result<Order, FormFault>
    requires { length place.now < 128 }
    ensures { Gives (λ o. o) result (ast.order_at place.now (array (item (json_of column.now) (item (json_of direction.now) no_items)))) }
{
    let column = name(alloc, column, place.within(alloc, 0)?)?;
    let descends = descends(direction, place.within(alloc, 1)?)?;
    Ok(Order { column, descends })
}

fn order(alloc: Global, json: &Json, place: &Place) -> Result<Order, FormFault>
    requires { length place.now < 128 }
    ensures { Gives (λ o. o) result (ast.order_at place.now (json_of json.now)) }
{
    match json {
        Json::Text(text) => Ok(Order {
            column: Name {
                text: copy_text(alloc, text)?,
                place: place.copy(alloc)?,
            },
            descends: false,
        }),
        Json::List(items) => match elements_of(items.as_slice()) {
            Elements::Two(column, direction) => directed(alloc, column, direction, place),
            _ => Err(refused(alloc, place)),
        },
        _ => Err(refused(alloc, place)),
    }
}

fn orders(alloc: Global, list: &[Json], place: &Place) -> Result<Orders, FormFault>
    requires { length place.now < 127 }
    ensures { Gives (λ os. os) result (ast.orders_at place.now 0 (items_of (jsons list.now))) }
{
    let mut found = Orders::new(alloc);
    let mut at = 0;
    for json in list {
        let inner = place.within(alloc, at)?;
        found.push(order(alloc, json, &inner)?)?;
        at += 1;
    }
    Ok(found)
}

fn some_orders(alloc: Global, list: &[Json], place: &Place) -> Result<Orders, FormFault>
    requires { length place.now < 127 }
    ensures { Gives (λ os. os) result (ast.order_list_at place.now (array (items_of (jsons list.now)))) }
{
    match split(list) {
        None => Err(refused(alloc, place)),
        Some(_) => orders(alloc, list, place),
    }
}

fn order_list(alloc: Global, json: &Json, place: &Place) -> Result<Orders, FormFault>
    requires { length place.now + levels (json_of json.now) ≤ 127 }
    ensures { Gives (λ os. os) result (ast.order_list_at place.now (json_of json.now)) }
{
    match json {
        Json::List(items) => some_orders(alloc, items.as_slice(), place),
        _ => Err(refused(alloc, place)),
    }
}

fn with_limit(
    alloc: Global,
    paging: Paging,
    value: &Json,
    place: &Place,
) -> Result<Paging, FormFault>
    requires { length place.now < 128 }
    ensures { Gives (λ g. g) result (ast.with_limit place.now paging (json_of value.now)) }
{
    if paging.limit.is_some() {
        return Err(refused(alloc, place));
    }
    let count = count(value, place.within(alloc, 1)?)?;
    Ok(Paging {
        order: paging.order,
        offset: paging.offset,
        limit: Some(count),
        include_total: paging.include_total,
    })
}

fn with_offset(
    alloc: Global,
    paging: Paging,
    value: &Json,
    place: &Place,
) -> Result<Paging, FormFault>
    requires { length place.now < 128 }
    ensures { Gives (λ g. g) result (ast.with_offset place.now paging (json_of value.now)) }
{
    if paging.offset.is_some() {
        return Err(refused(alloc, place));
    }
    let count = count(value, place.within(alloc, 1)?)?;
    Ok(Paging {
        order: paging.order,
        offset: Some(count),
        limit: paging.limit,
        include_total: paging.include_total,
    })
}

fn with_order(
    alloc: Global,
    paging: Paging,
    value: &Json,
    place: &Place,
) -> Result<Paging, FormFault>
    requires { length place.now + levels (json_of value.now) < 127 }
    ensures { Gives (λ g. g) result (ast.with_order place.now paging (json_of value.now)) }
{
    if !paging.order.as_slice().is_empty() {
        return Err(refused(alloc, place));
    }
    let order = order_list(alloc, value, &place.within(alloc, 1)?)?;
    Ok(Paging {
        order,
        offset: paging.offset,
        limit: paging.limit,
        include_total: paging.include_total,
    })
}

fn page_form(
    alloc: Global,
    paging: Paging,
    word: &Text,
    value: &Json,
    place: &Place,
) -> Result<Paging, FormFault>
    requires { length place.now + levels (json_of value.now) < 127 }
    ensures { Gives (λ g. g) result (ast.paged_at place.now paging (array (item (string word.now) (item (json_of value.now) no_items)))) }
{
    match part_word(word.as_str()) {
        PartWord::Limit => with_limit(alloc, paging, value, place),
        PartWord::Offset => with_offset(alloc, paging, value, place),
        PartWord::OrderBy => with_order(alloc, paging, value, place),
        PartWord::Extract => Err(refused(alloc, place)),
        PartWord::Other => Err(refused(alloc, place)),
    }
}

fn page_pair(
    alloc: Global,
    paging: Paging,
    head: &Json,
    value: &Json,
    place: &Place,
) -> Result<Paging, FormFault>
    requires { length place.now + levels (json_of value.now) < 127 }
    ensures { Gives (λ g. g) result (ast.paged_at place.now paging (array (item (json_of head.now) (item (json_of value.now) no_items)))) }
{
    match head {
        Json::Text(word) => page_form(alloc, paging, word, value, place),
        _ => Err(refused(alloc, place)),
    }
}

// Adds one part to the paging. Fails if the paging has that part already.
fn paged(alloc: Global, paging: Paging, json: &Json, place: &Place) -> Result<Paging, FormFault>
    requires { length place.now + levels (json_of json.now) ≤ 127 }
    ensures { Gives (λ g. g) result (ast.paged_at place.now paging (json_of json.now)) }
{
    match json {
        Json::List(items) => match elements_of(items.as_slice()) {
            Elements::Two(head, value) => page_pair(alloc, paging, head, value, place),
            _ => Err(refused(alloc, place)),
        },
        _ => Err(refused(alloc, place)),
    }
}

/// No limit, no offset and no order.
pub fn unpaged(alloc: Global) -> Paging
    ensures { result ≡ part.unpaged }
{
    Paging {
        order: Orders::new(alloc),
        offset: None,
        limit: None,
        include_total: false,
    }
}

/// Reads the paging of a query. The first element of `list` has the number `from` in the query.
pub fn paging(alloc: Global, list: &[Json], place: &Place, from: usize) -> Result<Paging, FormFault>
    requires place { length place.now + items_levels (items_of (jsons list.now)) < 127 }
    requires from { from ≤ 3 }
    ensures { Gives (λ g. g) result (ast.paging_at place.now from part.unpaged (items_of (jsons list.now))) }
{
    let mut found = unpaged(alloc);
    let mut at = from;
    for json in list {
        let inner = place.within(alloc, at)?;
        found = paged(alloc, found, json, &inner)?;
        at += 1;
    }
    Ok(found)
}
