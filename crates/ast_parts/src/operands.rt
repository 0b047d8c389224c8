//! Reads literals, patterns and booleans.
ghost use Rattle.std.specs.Prelude.{◌≡◌, ◌+◌, ◌<◌, ◌≤◌, length};
ghost use Rattle.json_tree.specs.text_spec.Json.{items_of, array};
ghost use Rattle.json_tree.specs.Tree.{json_of, jsons};
ghost use Rattle.query_spec.specs.Ast as ast;
ghost use Rattle.ast_parts.specs.Gives.{Gives};

use crate::fault::FormFault;
use crate::parts::{copy_text, refused, split};
use json_tree::{Json, Number};
use query_spec::{Literal, Literals, Pattern, Place, Scalar};
use std::alloc::Global;

/// Reads a text, a number or a boolean.
pub fn literal(alloc: Global, json: &Json, place: Place) -> Result<Literal, FormFault>
    ensures { Gives (λ l. l) result (ast.literal_at place (json_of json.now)) }
{
    match json {
        Json::Text(text) => Ok(Literal {
            value: Scalar::Text(copy_text(alloc, text)?),
            place,
        }),
        Json::Num(number) => {
            let spelling = copy_text(alloc, number.spelling())?;
            Ok(Literal {
                value: Scalar::Num(Number::of(spelling)),
                place,
            })
        }
        Json::Bool(value) => Ok(Literal {
            value: Scalar::Bool(*value),
            place,
        }),
        _ => Err(FormFault::NoForm(place)),
    }
}

fn literals(alloc: Global, list: &[Json], place: &Place) -> Result<Literals, FormFault>
    requires { length place.now < 128 }
    ensures { Gives (λ ls. ls) result (ast.literals_at place.now 0 (items_of (jsons list.now))) }
{
    let mut found = Literals::new(alloc);
    let mut at = 0;
    for json in list {
        found.push(literal(alloc, json, place.within(alloc, at)?)?)?;
        at += 1;
    }
    Ok(found)
}

/// Reads the literals of an array, at least one.
pub fn array(alloc: Global, json: &Json, place: &Place) -> Result<Literals, FormFault>
    requires { length place.now < 128 }
    ensures { Gives (λ ls. ls) result (ast.array_at place.now (json_of json.now)) }
{
    match json {
        Json::List(items) => some_literals(alloc, items.as_slice(), place),
        _ => Err(refused(alloc, place)),
    }
}

fn some_literals(alloc: Global, list: &[Json], place: &Place) -> Result<Literals, FormFault>
    requires { length place.now < 128 }
    ensures { Gives (λ ls. ls) result (ast.array_at place.now (array (items_of (jsons list.now)))) }
{
    match split(list) {
        None => Err(refused(alloc, place)),
        Some(_) => literals(alloc, list, place),
    }
}

/// Reads a pattern: a text.
pub fn pattern(alloc: Global, json: &Json, place: Place) -> Result<Pattern, FormFault>
    ensures { Gives (λ t. t) result (ast.pattern_at place (json_of json.now)) }
{
    match json {
        Json::Text(text) => Ok(Pattern {
            text: copy_text(alloc, text)?,
            place,
        }),
        _ => Err(FormFault::NoForm(place)),
    }
}

/// Reads a boolean.
pub fn truth(json: &Json, place: Place) -> Result<bool, FormFault>
    ensures { Gives (λ b. b) result (ast.bool_at place (json_of json.now)) }
{
    match json {
        Json::Bool(value) => Ok(*value),
        _ => Err(FormFault::NoForm(place)),
    }
}
