//! Reads the parts of levels that have no filter of their own.
ghost use Rattle.std.specs.Prelude.{◌≡◌, ◌++◌, ◌∷◌, [], ◌<◌, length, map, IfOk, Some, Ok};
ghost use Rattle.json_read.specs.text_spec.Json.{items_of, item, no_items, array};
ghost use Rattle.json_read.specs.json_tree.Tree.{json_of, jsons};
ghost use Rattle.query_spec.specs.Ast as ast;
ghost use Rattle.query_spec.specs.Parts.{unpaged};
ghost use Rattle.query_spec.specs.Query as spec;
ghost use Rattle.query_spec.specs.Words as words;
ghost use Rattle.query_spec.specs.declared.parts.Selected.TheVariants as selected;
ghost use Rattle.ast_tree.specs.Tree.{filter_of};
ghost use Rattle.ast_reader.specs.Among.{rows_among};
ghost use Rattle.ast_parts.specs.Gives.{Gives};
ghost use Rattle.ast_reader.specs.Extracts.{extract_of};

use ast_parts::{Elements, FormFault, array, behind_select, elements_of, refused, split, unpaged};
use ast_tree::{Clause, Filter, Level};
use json_read::json_tree::{Json, Text};
use query_spec::{Columns, Fields, Name, Paging, Place, Selected, Selection};
use std::alloc::{AllocError, Global};

/// An extract: what is shown of the chosen rows, the filter, and the columns of groups.
#[derive(Drop)]
pub(crate) struct Extract {
    pub(crate) shown: Selection,
    pub(crate) clause: Clause,
    pub(crate) group: Columns,
}

/// Whether the value begins as `group_by` does.
pub(crate) fn is_group(json: &Json) -> bool
    ensures { result ≡ ast.is_group (json_of json.now) }
{
    match json {
        Json::List(items) => match split(items.as_slice()) {
            None => false,
            Some((head, _)) => match head {
                Json::Text(word) => word.as_str() == "group_by",
                _ => false,
            },
        },
        _ => false,
    }
}

/// Reads the literals on the right side of `in` after the word `array`.
pub(crate) fn listed(
    alloc: Global,
    fields: Fields,
    rest: &[Json],
    place: &Place,
) -> Result<Filter, FormFault>
    requires { length place.now < 127 }
    ensures { Gives filter_of result (ast.listed_at place.now fields (items_of (jsons rest.now))) }
{
    match elements_of(rest) {
        Elements::One(json) => {
            let literals = array(alloc, json, &place.within(alloc, 1)?)?;
            Ok(Filter::InList(fields, place.copy(alloc)?, literals))
        }
        _ => Err(refused(alloc, place)),
    }
}

fn in_level(alloc: Global, fields: Fields, place: &Place, level: Level) -> Result<Filter, FormFault>
    ensures { Gives filter_of result (Ok (spec.in_level fields place.now level)) }
{
    Ok(Filter::InLevel(fields, place.copy(alloc)?, Box::new(alloc, level)?))
}

/// The filter of `in` with this level on its right side, if the level could be read.
pub(crate) fn among_rows(
    alloc: Global,
    fields: Fields,
    place: &Place,
    level: Result<Level, FormFault>,
) -> Result<Filter, FormFault>
    ensures { (r : ast.Read spec.Level) → Gives (λ q. q) level r → Gives filter_of result (rows_among fields place.now r) }
{
    match level {
        Ok(level) => in_level(alloc, fields, place, level),
        Err(fault) => Err(fault),
    }
}

/// The name of the entity in `select_E`.
pub(crate) fn selected_entity(alloc: Global, word: &Text, place: &Place) -> Result<Name, FormFault>
    requires { length place.now < 128 }
    ensures { Gives (λ n. n) result (ast.entity_behind place.now (words.behind_select word.now)) }
{
    match behind_select(word.as_str()) {
        None => Err(refused(alloc, place)),
        Some(entity) => Ok(Name {
            text: Text::from_str(alloc, entity)?,
            place: place.within(alloc, 0)?,
        }),
    }
}

fn as_shown(alloc: Global, columns: &[Name]) -> Result<Selection, AllocError>
    ensures { IfOk result (λ s. s ≡ map selected.Column columns.now) }
{
    let mut shown = Selection::new(alloc);
    for column in columns {
        shown.push(Selected::Column(column.copy(alloc)?))?;
    }
    Ok(shown)
}

/// The level that shows these columns of the entity's rows that the clause chooses.
pub(crate) fn selected_level(
    alloc: Global,
    entity: Name,
    columns: Columns,
    clause: Clause,
) -> Result<Level, AllocError>
    ensures { IfOk result (λ q. q ≡ spec.level entity (Some (map selected.Column columns)) clause [] unpaged) }
{
    let shown = as_shown(alloc, columns.as_slice())?;
    Ok(Level::new(
        entity,
        Some(shown),
        clause,
        Columns::new(alloc),
        unpaged(alloc),
    ))
}

/// The level that shows these columns of all rows of an entity.
pub(crate) fn rows_of_all(
    alloc: Global,
    columns: Columns,
    head: &Json,
    place: &Place,
) -> Result<Level, FormFault>
    requires { length place.now < 128 }
    ensures { Gives (λ q. q) result (ast.rows_of_at 0 place.now columns (array (item (json_of head.now) no_items))) }
{
    match head {
        Json::Text(word) => {
            let entity = selected_entity(alloc, word, place)?;
            Ok(selected_level(alloc, entity, columns, Clause::none())?)
        }
        _ => Err(refused(alloc, place)),
    }
}

/// The level of an extract with this paging.
pub(crate) fn extracted_level(entity: Name, extract: Extract, paging: Paging) -> Level
    ensures { result ≡ ast.extracted entity (extract_of extract) paging }
{
    Level::new(
        entity,
        Some(extract.shown),
        extract.clause,
        extract.group,
        paging,
    )
}
