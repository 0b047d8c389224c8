//! Reads whole queries, and the filter or extract of an entity's route.
ghost use Rattle.std.specs.Prelude.{◌≡◌, ◌+◌, ◌<◌, ◌≤◌, [], length};
ghost use Rattle.json_read.specs.text_spec.Json.{items_of, item, array, string, levels, items_levels};
ghost use Rattle.json_read.specs.json_tree.Tree.{json_of, jsons};
ghost use Rattle.query_spec.specs.Ast as ast;
ghost use Rattle.query_spec.specs.Answer as answer;
ghost use Rattle.ast_parts.specs.Gives.{Gives};

use crate::filter::{extract, filter};
use crate::select::extracted_level;
use ast_parts::{FormFault, name, paging, part_word, refused, split, unpaged};
use ast_tree::{Clause, Level};
use json_read::json_tree::{Json, Text};
use query_spec::fleet_rows::Entity;
use query_spec::{Columns, Name, PartWord, Place, entity_name};
use std::alloc::Global;

fn word_of(json: &Json) -> PartWord
    ensures { result ≡ ast.word_of (json_of json.now) }
{
    match json {
        Json::List(items) => match split(items.as_slice()) {
            None => PartWord::Other,
            Some((head, _)) => match head {
                Json::Text(word) => part_word(word.as_str()),
                _ => PartWord::Other,
            },
        },
        _ => PartWord::Other,
    }
}

fn extract_body(
    alloc: Global,
    entity: Name,
    json: &Json,
    rest: &[Json],
    place: &Place,
) -> Result<Level, FormFault>
    requires room { length place.now + levels (json_of json.now) < 127 }
    requires paging { length place.now + items_levels (items_of (jsons rest.now)) < 127 }
    ensures { Gives (λ q. q) result (ast.extract_body place.now entity (json_of json.now) (items_of (jsons rest.now))) }
{
    let extract = extract(alloc, json, &place.within(alloc, 2)?, 1)?;
    let paging = paging(alloc, rest, place, 3)?;
    Ok(extracted_level(entity, extract, paging))
}

fn filter_body(
    alloc: Global,
    entity: Name,
    json: &Json,
    rest: &[Json],
    place: &Place,
) -> Result<Level, FormFault>
    requires room { length place.now + levels (json_of json.now) < 127 }
    requires paging { length place.now + items_levels (items_of (jsons rest.now)) < 127 }
    ensures { Gives (λ q. q) result (ast.filter_body place.now entity (json_of json.now) (items_of (jsons rest.now))) }
{
    let filter = filter(alloc, json, &place.within(alloc, 2)?, 1)?;
    let clause = Clause::of(alloc, filter)?;
    let paging = paging(alloc, rest, place, 3)?;
    Ok(Level::new(entity, None, clause, Columns::new(alloc), paging))
}

fn paged_body(alloc: Global, entity: Name, list: &[Json], place: &Place) -> Result<Level, FormFault>
    requires { length place.now + items_levels (items_of (jsons list.now)) < 127 }
    ensures { Gives (λ q. q) result (ast.paged_body place.now entity (items_of (jsons list.now))) }
{
    let paging = paging(alloc, list, place, 2)?;
    Ok(Level::new(entity, None, Clause::none(), Columns::new(alloc), paging))
}

// Reads what follows the entity of a query.
fn body(alloc: Global, entity: Name, list: &[Json], place: &Place) -> Result<Level, FormFault>
    requires { length place.now + items_levels (items_of (jsons list.now)) < 127 }
    ensures { Gives (λ q. q) result (ast.body_at place.now entity (items_of (jsons list.now))) }
{
    match split(list) {
        None => Ok(Level::new(
            entity,
            None,
            Clause::none(),
            Columns::new(alloc),
            unpaged(alloc),
        )),
        Some((json, rest)) => match word_of(json) {
            PartWord::Extract => extract_body(alloc, entity, json, rest, place),
            PartWord::Other => filter_body(alloc, entity, json, rest, place),
            PartWord::Limit => paged_body(alloc, entity, list, place),
            PartWord::Offset => paged_body(alloc, entity, list, place),
            PartWord::OrderBy => paged_body(alloc, entity, list, place),
        },
    }
}

fn query_form(alloc: Global, head: &Text, rest: &[Json], place: &Place) -> Result<Level, FormFault>
    requires { length place.now + items_levels (items_of (jsons rest.now)) < 127 }
    ensures { Gives (λ q. q) result (ast.query_at place.now (array (item (string head.now) (items_of (jsons rest.now))))) }
{
    match split(rest) {
        None => Err(refused(alloc, place)),
        Some((entity, rest)) => {
            if head.as_str() == "from" {
                let entity = name(alloc, entity, place.within(alloc, 1)?)?;
                body(alloc, entity, rest, place)
            } else {
                Err(refused(alloc, place))
            }
        }
    }
}

fn query_at(alloc: Global, json: &Json, place: &Place) -> Result<Level, FormFault>
    requires { length place.now + levels (json_of json.now) ≤ 127 }
    ensures { Gives (λ q. q) result (ast.query_at place.now (json_of json.now)) }
{
    match json {
        Json::List(items) => match split(items.as_slice()) {
            None => Err(refused(alloc, place)),
            Some((head, rest)) => match head {
                Json::Text(word) => query_form(alloc, word, rest, place),
                _ => Err(refused(alloc, place)),
            },
        },
        _ => Err(refused(alloc, place)),
    }
}

/// The level of a whole query.
pub(crate) fn query(alloc: Global, json: &Json) -> Result<Level, FormFault>
    requires { levels (json_of json.now) ≤ 127 }
    ensures { Gives (λ q. q) result (answer.query (json_of json.now)) }
{
    query_at(alloc, json, &Place::new(alloc))
}

fn extract_route(
    alloc: Global,
    entity: Name,
    json: &Json,
    place: &Place,
) -> Result<Level, FormFault>
    requires { length place.now + levels (json_of json.now) ≤ 127 }
    ensures { Gives (λ q. q) result (ast.extract_route entity place.now (json_of json.now)) }
{
    let extract = extract(alloc, json, place, 1)?;
    Ok(extracted_level(entity, extract, unpaged(alloc)))
}

fn filter_route(alloc: Global, entity: Name, json: &Json, place: &Place) -> Result<Level, FormFault>
    requires { length place.now + levels (json_of json.now) ≤ 127 }
    ensures { Gives (λ q. q) result (ast.filter_route entity place.now (json_of json.now)) }
{
    let filter = filter(alloc, json, place, 1)?;
    let clause = Clause::of(alloc, filter)?;
    Ok(Level::new(entity, None, clause, Columns::new(alloc), unpaged(alloc)))
}

fn route_at(alloc: Global, entity: Name, json: &Json, place: &Place) -> Result<Level, FormFault>
    requires { length place.now + levels (json_of json.now) ≤ 127 }
    ensures { Gives (λ q. q) result (ast.route_at entity place.now (json_of json.now)) }
{
    match word_of(json) {
        PartWord::Extract => extract_route(alloc, entity, json, place),
        PartWord::Other => filter_route(alloc, entity, json, place),
        PartWord::Limit => filter_route(alloc, entity, json, place),
        PartWord::Offset => filter_route(alloc, entity, json, place),
        PartWord::OrderBy => filter_route(alloc, entity, json, place),
    }
}

/// The level of the entity with this filter or extract.
pub(crate) fn route(alloc: Global, entity: Entity, json: &Json) -> Result<Level, FormFault>
    requires { levels (json_of json.now) ≤ 127 }
    ensures { Gives (λ q. q) result (answer.route entity (json_of json.now)) }
{
    let name = Name {
        text: Text::from_str(alloc, entity_name(entity))?,
        place: Place::new(alloc),
    };
    route_at(alloc, name, json, &Place::new(alloc))
}
