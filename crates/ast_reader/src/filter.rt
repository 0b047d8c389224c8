//! Reads filters and the levels within them. The functions call each other recursively, as the forms of `query_spec` do.
//!
//! Each function takes a value, its place and its filter depth. The place's length and the value's nesting together are at most
//! 127, so that every place within the value fits into a `Place`. Matching a list's form and reading its elements are separate
//! functions. The contract of the second is about a list of that many elements.
ghost use Rattle.std.specs.Prelude.{◌≡◌, ◌+◌, ◌<◌, ◌≤◌, ◌∷◌, [], length};
ghost use Rattle.json_read.specs.text_spec.Json.{items_of, item, no_items, array, string, levels, items_levels};
ghost use Rattle.json_read.specs.json_tree.Tree.{json_of, jsons};
ghost use Rattle.query_spec.specs.Ast as ast;
ghost use Rattle.ast_tree.specs.Tree.{filter_of, filters};
ghost use Rattle.ast_parts.specs.Gives.{Gives};
ghost use Rattle.ast_reader.specs.Extracts.{extract_of};

use crate::compare::{compared, matched, null_test};
use crate::select::{
    Extract, among_rows, extracted_level, is_group, listed, rows_of_all, selected_entity,
    selected_level,
};
use crate::shown::shown;
use ast_parts::{
    Elements, FormFault, columns, elements_of, filter_word, group, inner_word, left, name, paging,
    refused, split,
};
use ast_tree::{Clause, Filter, Filters, Level, Operand};
use json_read::json_tree::{Json, Text};
use query_spec::{Columns, Fields, FilterWord, InnerWord, MOST_DEPTH, Place};
use std::alloc::Global;

/// Reads the value as a filter at this depth, which counts from 1.
#[cycle(read)]
pub(crate) fn filter(
    alloc: Global,
    json: &Json,
    place: &Place,
    depth: usize,
) -> Result<Filter, FormFault>
    requires room { length place.now + levels (json_of json.now) ≤ 127 }
    requires depth { depth ≤ 101 }
    ensures { Gives filter_of result (ast.filter_at depth place.now (json_of json.now)) }
{
    match json {
        Json::List(items) => match split(items.as_slice()) {
            None => Err(refused(alloc, place)),
            Some((head, rest)) => match head {
                Json::Text(word) => filter_form(alloc, word, rest, place, depth),
                _ => Err(refused(alloc, place)),
            },
        },
        _ => Err(refused(alloc, place)),
    }
}

#[cycle(read)]
fn filter_form(
    alloc: Global,
    head: &Text,
    rest: &[Json],
    place: &Place,
    depth: usize,
) -> Result<Filter, FormFault>
    requires room { length place.now + items_levels (items_of (jsons rest.now)) < 127 }
    requires depth { depth ≤ 101 }
    ensures { Gives filter_of result (ast.filter_at depth place.now (array (item (string head.now) (items_of (jsons rest.now))))) }
{
    if depth > MOST_DEPTH {
        return Err(refused(alloc, place));
    }
    match filter_word(head.as_str()) {
        FilterWord::And => Ok(Filter::All(some(alloc, rest, place, depth + 1)?)),
        FilterWord::Or => Ok(Filter::Any(some(alloc, rest, place, depth + 1)?)),
        FilterWord::Not => {
            let filter = one(alloc, rest, place, depth + 1)?;
            Ok(Filter::Not(Operand::new(alloc, filter)?))
        }
        FilterWord::Compare(op) => compared(alloc, op, rest, place),
        FilterWord::Matches => matched(alloc, rest, place),
        FilterWord::IsNull => null_test(alloc, rest, place),
        FilterWord::In => sides(alloc, rest, place, depth + 1),
        FilterWord::Subquery => subquery(alloc, rest, place, depth + 1),
        FilterWord::Other => Err(refused(alloc, place)),
    }
}

#[cycle(read)]
fn some(alloc: Global, rest: &[Json], place: &Place, depth: usize) -> Result<Filters, FormFault>
    requires room { length place.now + items_levels (items_of (jsons rest.now)) < 127 }
    requires depth { depth ≤ 101 }
    ensures { Gives (λ fs. fs) result (ast.some_at depth place.now (items_of (jsons rest.now))) }
{
    match split(rest) {
        None => Err(refused(alloc, place)),
        Some(_) => each(alloc, rest, place, depth),
    }
}

#[cycle(read)]
fn each(alloc: Global, list: &[Json], place: &Place, depth: usize) -> Result<Filters, FormFault>
    requires room { length place.now + items_levels (items_of (jsons list.now)) < 127 }
    requires depth { depth ≤ 101 }
    ensures { Gives (λ fs. fs) result (ast.filters_at depth place.now 1 (items_of (jsons list.now))) }
{
    let mut found = Filters::new(alloc);
    let mut at: usize = 1;
    for json in list {
        let inner = place.within(alloc, at)?;
        found.push(filter(alloc, json, &inner, depth)?)?;
        at += 1;
    }
    Ok(found)
}

#[cycle(read)]
fn one(alloc: Global, rest: &[Json], place: &Place, depth: usize) -> Result<Filter, FormFault>
    requires room { length place.now + items_levels (items_of (jsons rest.now)) < 127 }
    requires depth { depth ≤ 101 }
    ensures { Gives filter_of result (ast.one_at depth place.now (items_of (jsons rest.now))) }
{
    match elements_of(rest) {
        Elements::One(json) => filter(alloc, json, &place.within(alloc, 1)?, depth),
        _ => Err(refused(alloc, place)),
    }
}

// Reads the two sides of `in`.
#[cycle(read)]
fn sides(alloc: Global, rest: &[Json], place: &Place, depth: usize) -> Result<Filter, FormFault>
    requires room { length place.now + items_levels (items_of (jsons rest.now)) < 127 }
    requires depth { depth ≤ 101 }
    ensures { Gives filter_of result (ast.in_at depth place.now (items_of (jsons rest.now))) }
{
    match elements_of(rest) {
        Elements::Two(first, second) => both_sides(alloc, first, second, place, depth),
        _ => Err(refused(alloc, place)),
    }
}

#[cycle(read)]
fn both_sides(
    alloc: Global,
    first: &Json,
    second: &Json,
    place: &Place,
    depth: usize,
) -> Result<Filter, FormFault>
    requires room { length place.now + levels (json_of second.now) < 127 }
    requires depth { depth ≤ 101 }
    ensures { Gives filter_of result (ast.in_at depth place.now (item (json_of first.now) (item (json_of second.now) no_items))) }
{
    let fields = left(alloc, first, &place.within(alloc, 1)?)?;
    inner(alloc, fields, second, &place.within(alloc, 2)?, depth)
}

// Reads the right side of `in`; `fields` is the left side.
#[cycle(read)]
fn inner(
    alloc: Global,
    fields: Fields,
    json: &Json,
    place: &Place,
    depth: usize,
) -> Result<Filter, FormFault>
    requires room { length place.now + levels (json_of json.now) ≤ 127 }
    requires depth { depth ≤ 101 }
    ensures { Gives filter_of result (ast.inner_at depth place.now fields (json_of json.now)) }
{
    match json {
        Json::List(items) => match split(items.as_slice()) {
            None => Err(refused(alloc, place)),
            Some((head, rest)) => match head {
                Json::Text(word) => inner_form(alloc, fields, word, rest, place, depth),
                _ => Err(refused(alloc, place)),
            },
        },
        _ => Err(refused(alloc, place)),
    }
}

#[cycle(read)]
fn inner_form(
    alloc: Global,
    fields: Fields,
    head: &Text,
    rest: &[Json],
    place: &Place,
    depth: usize,
) -> Result<Filter, FormFault>
    requires room { length place.now + items_levels (items_of (jsons rest.now)) < 127 }
    requires depth { depth ≤ 101 }
    ensures { Gives filter_of result (ast.inner_at depth place.now fields (array (item (string head.now) (items_of (jsons rest.now))))) }
{
    match inner_word(head.as_str()) {
        InnerWord::Array => listed(alloc, fields, rest, place),
        InnerWord::Extract => among_rows(alloc, fields, place, select(alloc, rest, place, depth)),
        InnerWord::From => among_rows(alloc, fields, place, query(alloc, rest, place, depth)),
        InnerWord::Other => Err(refused(alloc, place)),
    }
}

// Reads `extract` on the right side of `in`: columns, and the entity whose rows are chosen.
#[cycle(read)]
fn select(alloc: Global, rest: &[Json], place: &Place, depth: usize) -> Result<Level, FormFault>
    requires room { length place.now + items_levels (items_of (jsons rest.now)) < 127 }
    requires depth { depth ≤ 101 }
    ensures { Gives (λ q. q) result (ast.select_at depth place.now (items_of (jsons rest.now))) }
{
    match elements_of(rest) {
        Elements::Two(first, second) => select_form(alloc, first, second, place, depth),
        _ => Err(refused(alloc, place)),
    }
}

#[cycle(read)]
fn select_form(
    alloc: Global,
    first: &Json,
    second: &Json,
    place: &Place,
    depth: usize,
) -> Result<Level, FormFault>
    requires room { length place.now + levels (json_of second.now) < 127 }
    requires depth { depth ≤ 101 }
    ensures { Gives (λ q. q) result (ast.select_at depth place.now (item (json_of first.now) (item (json_of second.now) no_items))) }
{
    let columns = columns(alloc, first, &place.within(alloc, 1)?)?;
    rows_of(alloc, columns, second, &place.within(alloc, 2)?, depth)
}

#[cycle(read)]
fn rows_of(
    alloc: Global,
    columns: Columns,
    json: &Json,
    place: &Place,
    depth: usize,
) -> Result<Level, FormFault>
    requires room { length place.now + levels (json_of json.now) ≤ 127 }
    requires depth { depth ≤ 101 }
    ensures { Gives (λ q. q) result (ast.rows_of_at depth place.now columns (json_of json.now)) }
{
    match json {
        Json::List(items) => match elements_of(items.as_slice()) {
            Elements::One(head) => rows_of_all(alloc, columns, head, place),
            Elements::Two(head, json) => rows_where(alloc, columns, head, json, place, depth),
            _ => Err(refused(alloc, place)),
        },
        _ => Err(refused(alloc, place)),
    }
}

#[cycle(read)]
fn rows_where(
    alloc: Global,
    columns: Columns,
    head: &Json,
    json: &Json,
    place: &Place,
    depth: usize,
) -> Result<Level, FormFault>
    requires room { length place.now + levels (json_of json.now) < 127 }
    requires depth { depth ≤ 101 }
    ensures { Gives (λ q. q) result (ast.rows_of_at depth place.now columns (array (item (json_of head.now) (item (json_of json.now) no_items)))) }
{
    match head {
        Json::Text(word) => {
            let entity = selected_entity(alloc, word, place)?;
            let filter = filter(alloc, json, &place.within(alloc, 1)?, depth)?;
            let clause = Clause::of(alloc, filter)?;
            Ok(selected_level(alloc, entity, columns, clause)?)
        }
        _ => Err(refused(alloc, place)),
    }
}

#[cycle(read)]
fn subquery(alloc: Global, rest: &[Json], place: &Place, depth: usize) -> Result<Filter, FormFault>
    requires room { length place.now + items_levels (items_of (jsons rest.now)) < 127 }
    requires depth { depth ≤ 101 }
    ensures { Gives filter_of result (ast.subquery_at depth place.now (items_of (jsons rest.now))) }
{
    match elements_of(rest) {
        Elements::One(entity) => {
            let entity = name(alloc, entity, place.within(alloc, 1)?)?;
            Ok(Filter::Subquery(entity, Clause::none()))
        }
        Elements::Two(entity, json) => related(alloc, entity, json, place, depth),
        _ => Err(refused(alloc, place)),
    }
}

#[cycle(read)]
fn related(
    alloc: Global,
    entity: &Json,
    json: &Json,
    place: &Place,
    depth: usize,
) -> Result<Filter, FormFault>
    requires room { length place.now + levels (json_of json.now) < 127 }
    requires depth { depth ≤ 101 }
    ensures { Gives filter_of result (ast.subquery_at depth place.now (item (json_of entity.now) (item (json_of json.now) no_items))) }
{
    let entity = name(alloc, entity, place.within(alloc, 1)?)?;
    let filter = filter(alloc, json, &place.within(alloc, 2)?, depth)?;
    Ok(Filter::Subquery(entity, Clause::of(alloc, filter)?))
}

/// Reads an extract: what is shown, the filter and the columns of groups.
#[cycle(read)]
pub(crate) fn extract(
    alloc: Global,
    json: &Json,
    place: &Place,
    depth: usize,
) -> Result<Extract, FormFault>
    requires room { length place.now + levels (json_of json.now) ≤ 127 }
    requires depth { depth ≤ 101 }
    ensures { Gives extract_of result (ast.extract_at depth place.now (json_of json.now)) }
{
    match json {
        Json::List(items) => match split(items.as_slice()) {
            None => Err(refused(alloc, place)),
            Some((head, rest)) => match head {
                Json::Text(word) => extract_form(alloc, word, rest, place, depth),
                _ => Err(refused(alloc, place)),
            },
        },
        _ => Err(refused(alloc, place)),
    }
}

#[cycle(read)]
fn extract_form(
    alloc: Global,
    head: &Text,
    rest: &[Json],
    place: &Place,
    depth: usize,
) -> Result<Extract, FormFault>
    requires room { length place.now + items_levels (items_of (jsons rest.now)) < 127 }
    requires depth { depth ≤ 101 }
    ensures { Gives extract_of result (ast.extract_at depth place.now (array (item (string head.now) (items_of (jsons rest.now))))) }
{
    if head.as_str() == "extract" {
        extracted(alloc, rest, place, depth)
    } else {
        Err(refused(alloc, place))
    }
}

#[cycle(read)]
fn extracted(
    alloc: Global,
    rest: &[Json],
    place: &Place,
    depth: usize,
) -> Result<Extract, FormFault>
    requires room { length place.now + items_levels (items_of (jsons rest.now)) < 127 }
    requires depth { depth ≤ 101 }
    ensures { Gives extract_of result (ast.extracted_at depth place.now (items_of (jsons rest.now))) }
{
    match elements_of(rest) {
        Elements::One(json) => Ok(Extract {
            shown: shown(alloc, json, &place.within(alloc, 1)?)?,
            clause: Clause::none(),
            group: Columns::new(alloc),
        }),
        Elements::Two(json, part) => extracted_with(alloc, json, part, place, depth),
        Elements::Three(json, chosen, by) => { extracted_by(alloc, json, chosen, by, place, depth) }
        _ => Err(refused(alloc, place)),
    }
}

#[cycle(read)]
fn extracted_with(
    alloc: Global,
    json: &Json,
    part: &Json,
    place: &Place,
    depth: usize,
) -> Result<Extract, FormFault>
    requires shown { length place.now + levels (json_of json.now) < 127 }
    requires room { length place.now + levels (json_of part.now) < 127 }
    requires depth { depth ≤ 101 }
    ensures { Gives extract_of result (ast.extracted_at depth place.now (item (json_of json.now) (item (json_of part.now) no_items))) }
{
    let shown = shown(alloc, json, &place.within(alloc, 1)?)?;
    let inner = place.within(alloc, 2)?;
    if is_group(part) {
        let group = group(alloc, part, &inner)?;
        Ok(Extract {
            shown,
            clause: Clause::none(),
            group,
        })
    } else {
        let filter = filter(alloc, part, &inner, depth)?;
        Ok(Extract {
            shown,
            clause: Clause::of(alloc, filter)?,
            group: Columns::new(alloc),
        })
    }
}

#[cycle(read)]
fn extracted_by(
    alloc: Global,
    json: &Json,
    chosen: &Json,
    by: &Json,
    place: &Place,
    depth: usize,
) -> Result<Extract, FormFault>
    requires shown { length place.now + levels (json_of json.now) < 127 }
    requires room { length place.now + levels (json_of chosen.now) < 127 }
    requires depth { depth ≤ 101 }
    ensures { Gives extract_of result (ast.extracted_at depth place.now
        (item (json_of json.now) (item (json_of chosen.now) (item (json_of by.now) no_items)))) }
{
    let shown = shown(alloc, json, &place.within(alloc, 1)?)?;
    let filter = filter(alloc, chosen, &place.within(alloc, 2)?, depth)?;
    let clause = Clause::of(alloc, filter)?;
    let group = group(alloc, by, &place.within(alloc, 3)?)?;
    Ok(Extract {
        shown,
        clause,
        group,
    })
}

// Reads `from` on the right side of `in`: an entity, an extract and paging.
#[cycle(read)]
fn query(alloc: Global, rest: &[Json], place: &Place, depth: usize) -> Result<Level, FormFault>
    requires room { length place.now + items_levels (items_of (jsons rest.now)) < 127 }
    requires depth { depth ≤ 101 }
    ensures { Gives (λ q. q) result (ast.query_within depth place.now (items_of (jsons rest.now))) }
{
    match split(rest) {
        None => Err(refused(alloc, place)),
        Some((entity, rest)) => match split(rest) {
            None => Err(refused(alloc, place)),
            Some((json, rest)) => query_form(alloc, entity, json, rest, place, depth),
        },
    }
}

#[cycle(read)]
fn query_form(
    alloc: Global,
    entity: &Json,
    json: &Json,
    rest: &[Json],
    place: &Place,
    depth: usize,
) -> Result<Level, FormFault>
    requires room { length place.now + levels (json_of json.now) < 127 }
    requires paging { length place.now + items_levels (items_of (jsons rest.now)) < 127 }
    requires depth { depth ≤ 101 }
    ensures { Gives (λ q. q) result (ast.query_within depth place.now (item (json_of entity.now) (item (json_of json.now) (items_of (jsons rest.now))))) }
{
    let entity = name(alloc, entity, place.within(alloc, 1)?)?;
    let extract = extract(alloc, json, &place.within(alloc, 2)?, depth)?;
    let paging = paging(alloc, rest, place, 3)?;
    Ok(extracted_level(entity, extract, paging))
}
