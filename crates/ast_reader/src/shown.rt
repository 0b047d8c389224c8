//! Reads what a query shows: columns, and functions over groups of rows.
ghost use Rattle.std.specs.Prelude.{◌≡◌, ◌+◌, ◌<◌, ◌≤◌, ◌&&◌, ◌||◌, [], length, Some};
ghost use Rattle.std.specs.List.{list_any};
ghost use Rattle.std.specs.Str.{bytes_eq};
ghost use Rattle.json_read.specs.text_spec.Json.{items_of, item, no_items, array, string, levels, items_levels};
ghost use Rattle.json_read.specs.json_tree.Tree.{json_of, jsons};
ghost use Rattle.query_spec.specs.Ast as ast;
ghost use Rattle.query_spec.specs.Parts as part;
ghost use Rattle.query_spec.specs.Words as words;
ghost use Rattle.ast_parts.specs.Gives.{Gives};

use ast_parts::{
    Elements, FormFault, copy_text, elements_of, function_named, name, refused, refused_within,
    split,
};
use ast_tree::{function_name, is_function, output_name};
use json_read::json_tree::{Json, Text};
use query_spec::{Function, Name, Place, Selected, Selection};
use std::alloc::Global;

fn clashes(name: &str, applies: bool, earlier: &Selected) -> bool
    ensures { result ≡ (bytes_eq name.now (part.output_name earlier.now) && (applies || part.is_function earlier.now)) }
{
    name == output_name(earlier) && (applies || is_function(earlier))
}

// Whether the name is taken: by any earlier output if it names a function (`applies`), otherwise by an earlier function.
fn is_taken(name: &str, applies: bool, earlier: &[Selected]) -> bool
    ensures { result ≡ list_any (λ x. bytes_eq name.now (part.output_name x) && (applies || part.is_function x)) earlier.now }
{
    for other in earlier {
        if clashes(name, applies, other) {
            return true;
        }
    }
    false
}

fn rows(
    alloc: Global,
    earlier: &[Selected],
    word: &Text,
    place: &Place,
) -> Result<Selected, FormFault>
    requires { length place.now < 128 }
    ensures { Gives (λ s. s) result (ast.rows_at place.now earlier.now (words.function_named word.now)) }
{
    match function_named(word.as_str()) {
        Some(Function::Count) => {
            if is_taken("count", true, earlier) {
                Err(refused(alloc, place))
            } else {
                Ok(Selected::Rows)
            }
        }
        _ => Err(refused_within(alloc, place, 1)),
    }
}

fn applied(
    alloc: Global,
    earlier: &[Selected],
    function: Function,
    value: &Json,
    place: &Place,
) -> Result<Selected, FormFault>
    requires { length place.now < 128 }
    ensures { Gives (λ s. s) result (ast.function_at place.now earlier.now (Some function) (json_of value.now)) }
{
    if is_taken(function_name(function), true, earlier) {
        return Err(refused(alloc, place));
    }
    let name = name(alloc, value, place.within(alloc, 2)?)?;
    Ok(Selected::Function(function, name))
}

fn one_word(
    alloc: Global,
    earlier: &[Selected],
    word: &Json,
    place: &Place,
) -> Result<Selected, FormFault>
    requires { length place.now < 128 }
    ensures { Gives (λ s. s) result (ast.function_form place.now earlier.now (item (json_of word.now) no_items)) }
{
    match word {
        Json::Text(text) => rows(alloc, earlier, text, place),
        _ => Err(refused_within(alloc, place, 1)),
    }
}

fn two_words(
    alloc: Global,
    earlier: &[Selected],
    word: &Json,
    value: &Json,
    place: &Place,
) -> Result<Selected, FormFault>
    requires { length place.now < 128 }
    ensures { Gives (λ s. s) result (ast.function_form place.now earlier.now (item (json_of word.now) (item (json_of value.now) no_items))) }
{
    match word {
        Json::Text(text) => match function_named(text.as_str()) {
            Some(function) => applied(alloc, earlier, function, value, place),
            None => Err(refused_within(alloc, place, 1)),
        },
        _ => Err(refused_within(alloc, place, 1)),
    }
}

// Reads a function after the word `function`.
fn function(
    alloc: Global,
    earlier: &[Selected],
    rest: &[Json],
    place: &Place,
) -> Result<Selected, FormFault>
    requires { length place.now < 128 }
    ensures { Gives (λ s. s) result (ast.function_form place.now earlier.now (items_of (jsons rest.now))) }
{
    match elements_of(rest) {
        Elements::One(word) => one_word(alloc, earlier, word, place),
        Elements::Two(word, value) => two_words(alloc, earlier, word, value, place),
        _ => Err(refused(alloc, place)),
    }
}

fn shown_form(
    alloc: Global,
    earlier: &[Selected],
    head: &Text,
    rest: &[Json],
    place: &Place,
) -> Result<Selected, FormFault>
    requires { length place.now < 128 }
    ensures { Gives (λ s. s) result (ast.selected_at place.now earlier.now (array (item (string head.now) (items_of (jsons rest.now))))) }
{
    if head.as_str() == "function" {
        function(alloc, earlier, rest, place)
    } else {
        Err(refused(alloc, place))
    }
}

fn column(
    alloc: Global,
    earlier: &[Selected],
    text: &Text,
    place: &Place,
) -> Result<Selected, FormFault>
    ensures { Gives (λ s. s) result (ast.selected_at place.now earlier.now (string text.now)) }
{
    if is_taken(text.as_str(), false, earlier) {
        return Err(refused(alloc, place));
    }
    Ok(Selected::Column(Name {
        text: copy_text(alloc, text)?,
        place: place.copy(alloc)?,
    }))
}

// Reads a column or a function. Its name must be free, except that a column may occur twice.
fn selected(
    alloc: Global,
    earlier: &[Selected],
    json: &Json,
    place: &Place,
) -> Result<Selected, FormFault>
    requires { length place.now < 128 }
    ensures { Gives (λ s. s) result (ast.selected_at place.now earlier.now (json_of json.now)) }
{
    match json {
        Json::Text(text) => column(alloc, earlier, text, place),
        Json::List(items) => match split(items.as_slice()) {
            None => Err(refused(alloc, place)),
            Some((head, rest)) => match head {
                Json::Text(word) => shown_form(alloc, earlier, word, rest, place),
                _ => Err(refused(alloc, place)),
            },
        },
        _ => Err(refused(alloc, place)),
    }
}

fn selection(alloc: Global, list: &[Json], place: &Place) -> Result<Selection, FormFault>
    requires { length place.now < 127 }
    ensures { Gives (λ s. s) result (ast.selection_at place.now 0 [] (items_of (jsons list.now))) }
{
    let mut found = Selection::new(alloc);
    let mut at = 0;
    for json in list {
        let inner = place.within(alloc, at)?;
        found.push(selected(alloc, found.as_slice(), json, &inner)?)?;
        at += 1;
    }
    Ok(found)
}

fn some_selected(alloc: Global, list: &[Json], place: &Place) -> Result<Selection, FormFault>
    requires { length place.now < 127 }
    ensures { Gives (λ s. s) result (ast.shown_at place.now (array (items_of (jsons list.now)))) }
{
    match split(list) {
        None => Err(refused(alloc, place)),
        Some(_) => selection(alloc, list, place),
    }
}

/// Reads what is shown: a column, or a list of columns and functions.
pub(crate) fn shown(alloc: Global, json: &Json, place: &Place) -> Result<Selection, FormFault>
    requires { length place.now + levels (json_of json.now) ≤ 127 }
    ensures { Gives (λ s. s) result (ast.shown_at place.now (json_of json.now)) }
{
    match json {
        Json::Text(text) => {
            let mut found = Selection::new(alloc);
            found.push(Selected::Column(Name {
                text: copy_text(alloc, text)?,
                place: place.copy(alloc)?,
            }))?;
            Ok(found)
        }
        Json::List(items) => some_selected(alloc, items.as_slice(), place),
        _ => Err(refused(alloc, place)),
    }
}
