//! Reads names, fields and columns: the parts without filters.
ghost use Rattle.std.specs.Prelude.{◌≡◌, ◌+◌, ◌<◌, ◌≤◌, [], ◌∷◌, ◌++◌, length, IfOk, Err, MatchOption};
ghost use Rattle.json_tree.specs.text_spec.Json.{items_of, item, no_items, array, string};
ghost use Rattle.json_tree.specs.Tree.{json_of, jsons};
ghost use Rattle.query_spec.specs.Ast as ast;
ghost use Rattle.query_spec.specs.Parts.{field_named, name};
ghost use Rattle.ast_parts.specs.Gives.{Gives, Fails};

use crate::elements::{Elements, elements_of};
use crate::fault::FormFault;
use crate::words::field_word;
use json_tree::{Json, Text};
use query_spec::{Columns, Field, FieldWord, Fields, Name, Place};
use std::alloc::{AllocError, Global};

/// The first value and the rest, or None for an empty list.
pub fn split(list: &[Json]) -> Option<(&Json, &[Json])>
    ensures { MatchOption result (items_of (jsons list.now) ≡ no_items) (λ p. items_of (jsons list.now) ≡ item (json_of p.0.now) (items_of (jsons p.1.now))) }
{
    match list {
        [] => None,
        [first, others @ ..] => Some((first, others)),
    }
}

/// The fault that no form is allowed at this place.
pub fn refused(alloc: Global, place: &Place) -> FormFault
    ensures { Fails {B = Unit {0}} result (Err place.now) }
{
    match place.copy(alloc) {
        Ok(place) => FormFault::NoForm(place),
        Err(_) => FormFault::Memory,
    }
}

/// The fault that no form is allowed for the element of this number.
pub fn refused_within(alloc: Global, place: &Place, number: usize) -> FormFault
    requires { length place.now < 128 }
    ensures { Fails {B = Unit {0}} result (Err (place.now ++ number ∷ [])) }
{
    match place.within(alloc, number) {
        Ok(place) => FormFault::NoForm(place),
        Err(_) => FormFault::Memory,
    }
}

pub fn copy_text(alloc: Global, text: &Text) -> Result<Text, AllocError>
    ensures { IfOk result (λ copied. copied ≡ text.now) }
{
    Text::from_str(alloc, text.as_str())
}

pub fn name(alloc: Global, json: &Json, place: Place) -> Result<Name, FormFault>
    ensures { Gives (λ n. n) result (ast.name_at place (json_of json.now)) }
{
    match json {
        Json::Text(text) => Ok(Name {
            text: copy_text(alloc, text)?,
            place,
        }),
        _ => Err(FormFault::NoForm(place)),
    }
}

/// The field with this name.
#[tactic(auto, unfolding(query_spec::specs::Parts::field_named))]
pub(crate) fn field_named(name: Name) -> Field
    ensures { result ≡ field_named name }
{
    if name.text.as_str() == "tag" {
        Field::Tag(name.place)
    } else if name.text.as_str() == "node_state" {
        Field::NodeState(name.place)
    } else {
        Field::Column(name)
    }
}

/// Reads a field: a column, a parameter of a resource, a fact of a node, a tag, or a node's state.
pub fn field(alloc: Global, json: &Json, place: &Place) -> Result<Field, FormFault>
    requires { length place.now < 128 }
    ensures { Gives (λ f. f) result (ast.field_at place.now (json_of json.now)) }
{
    match json {
        Json::Text(text) => Ok(field_named(Name {
            text: copy_text(alloc, text)?,
            place: place.copy(alloc)?,
        })),
        Json::List(items) => match elements_of(items.as_slice()) {
            Elements::Two(head, value) => field_form(alloc, head, value, place),
            _ => Err(refused(alloc, place)),
        },
        _ => Err(refused(alloc, place)),
    }
}

fn field_form(alloc: Global, head: &Json, value: &Json, place: &Place) -> Result<Field, FormFault>
    requires { length place.now < 128 }
    ensures { Gives (λ f. f) result (ast.field_at place.now (array (item (json_of head.now) (item (json_of value.now) no_items)))) }
{
    match head {
        Json::Text(text) => match field_word(text.as_str()) {
            FieldWord::Parameter => {
                let name = name(alloc, value, place.within(alloc, 1)?)?;
                Ok(Field::Parameter(name))
            }
            FieldWord::Fact => {
                let name = name(alloc, value, place.within(alloc, 1)?)?;
                Ok(Field::Fact(name))
            }
            FieldWord::Other => Err(refused(alloc, place)),
        },
        _ => Err(refused(alloc, place)),
    }
}

/// Reads the names of a list. The first has the number `from`.
fn names(alloc: Global, list: &[Json], place: &Place, from: usize) -> Result<Columns, FormFault>
    requires place { length place.now < 128 }
    requires from { from ≤ 1 }
    ensures { Gives (λ ns. ns) result (ast.names_at place.now from (items_of (jsons list.now))) }
{
    let mut found = Columns::new(alloc);
    let mut at = from;
    for json in list {
        found.push(name(alloc, json, place.within(alloc, at)?)?)?;
        at += 1;
    }
    Ok(found)
}

/// Reads a column, or a list of at least one column.
pub fn columns(alloc: Global, json: &Json, place: &Place) -> Result<Columns, FormFault>
    requires { length place.now < 128 }
    ensures { Gives (λ ns. ns) result (ast.columns_at place.now (json_of json.now)) }
{
    match json {
        Json::Text(text) => {
            let mut found = Columns::new(alloc);
            found.push(Name {
                text: copy_text(alloc, text)?,
                place: place.copy(alloc)?,
            })?;
            Ok(found)
        }
        Json::List(items) => some_names(alloc, items.as_slice(), place),
        _ => Err(refused(alloc, place)),
    }
}

fn some_names(alloc: Global, list: &[Json], place: &Place) -> Result<Columns, FormFault>
    requires { length place.now < 128 }
    ensures { Gives (λ ns. ns) result (ast.columns_at place.now (array (items_of (jsons list.now)))) }
{
    match split(list) {
        None => Err(refused(alloc, place)),
        Some(_) => names(alloc, list, place, 0),
    }
}

/// Reads `group_by` with its columns.
pub fn group(alloc: Global, json: &Json, place: &Place) -> Result<Columns, FormFault>
    requires { length place.now < 128 }
    ensures { Gives (λ ns. ns) result (ast.group_at place.now (json_of json.now)) }
{
    match json {
        Json::List(items) => match split(items.as_slice()) {
            None => Err(refused(alloc, place)),
            Some((head, rest)) => match head {
                Json::Text(word) => group_form(alloc, word, rest, place),
                _ => Err(refused(alloc, place)),
            },
        },
        _ => Err(refused(alloc, place)),
    }
}

fn group_form(
    alloc: Global,
    word: &Text,
    rest: &[Json],
    place: &Place,
) -> Result<Columns, FormFault>
    requires { length place.now < 128 }
    ensures { Gives (λ ns. ns) result (ast.group_at place.now (array (item (string word.now) (items_of (jsons rest.now))))) }
{
    match split(rest) {
        None => Err(refused(alloc, place)),
        Some(_) => {
            if word.as_str() == "group_by" {
                names(alloc, rest, place, 1)
            } else {
                Err(refused(alloc, place))
            }
        }
    }
}

/// Reads the fields of a list.
fn fields(alloc: Global, list: &[Json], place: &Place) -> Result<Fields, FormFault>
    requires { length place.now < 128 }
    ensures { Gives (λ fs. fs) result (ast.fields_at place.now 0 (items_of (jsons list.now))) }
{
    let mut found = Fields::new(alloc);
    let mut at = 0;
    for json in list {
        let name = name(alloc, json, place.within(alloc, at)?)?;
        found.push(field_named(name))?;
        at += 1;
    }
    Ok(found)
}

/// Reads the left side of `in`: a column, or a list of at least one column.
pub fn left(alloc: Global, json: &Json, place: &Place) -> Result<Fields, FormFault>
    requires { length place.now < 128 }
    ensures { Gives (λ fs. fs) result (ast.left_at place.now (json_of json.now)) }
{
    match json {
        Json::Text(text) => {
            let mut found = Fields::new(alloc);
            let name = Name {
                text: copy_text(alloc, text)?,
                place: place.copy(alloc)?,
            };
            found.push(field_named(name))?;
            Ok(found)
        }
        Json::List(items) => some_fields(alloc, items.as_slice(), place),
        _ => Err(refused(alloc, place)),
    }
}

fn some_fields(alloc: Global, list: &[Json], place: &Place) -> Result<Fields, FormFault>
    requires { length place.now < 128 }
    ensures { Gives (λ fs. fs) result (ast.left_at place.now (array (items_of (jsons list.now)))) }
{
    match split(list) {
        None => Err(refused(alloc, place)),
        Some(_) => fields(alloc, list, place),
    }
}
