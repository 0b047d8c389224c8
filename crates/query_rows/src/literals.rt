//! Prepares the steps of a filter, with an index of the literals of long arrays.
//!
//! A literal is stored under the text of its value and, if it is a stamp, under the text of its moment too. So a cell that equals
//! a literal finds it under the cell's own text.
ghost use Rattle.std.specs.Prelude.{◌≡◌, true, false, ℕ, ℤ, List, IfOk, OnOk};
ghost use Rattle.std.specs.List.{list_any};
ghost use Rattle.std.specs.Option.{option_map_or};
ghost use Rattle.std.specs.Ordering.{int_eq};
ghost use Rattle.std.specs.Fmt.{signed_decimal};
ghost use Rattle.same_text.specs.Alike.{same_text};
ghost use Rattle.same_text.specs.text_spec.Json.{Json as JsonValue};
ghost use Rattle.same_text.specs.text_spec.Order.{same};
ghost use Rattle.same_text.specs.json_tree.Tree.{json_of};
ghost use Rattle.fleet_tables.specs.fleet_rows.Cell.{CellValue};
ghost use Rattle.query_plan.specs.means_spec.Cells.{equals, moment_of, scalar_value};
ghost use Rattle.query_plan.specs.query_spec.declared.parts.Literal.{Literal};
ghost use Rattle.query_plan.specs.Made.{step_of, steps_of};
ghost use Rattle.query_rows.specs.Indexed.{holds_place, passes_at};
ghost use Rattle.query_rows.specs.Marked.{cell_text};
ghost use Rattle.query_rows.specs.Ready.{AreLiteralsOf};
ghost use Rattle.row_views.specs.Seen.{seen_value};

use crate::compare::{equals, moment_of};
use crate::index::{Index, note, places_under};
use crate::marks::{append_moment, append_seen};
use fleet_tables::stamp_time::Moment;
use pattern_port::Keys;
use query_plan::Step;
use query_plan::query_spec::{Literal, Scalar};
use row_views::Seen;
use same_text::append_same;
use same_text::json_tree::{Json, Number, Text};
use std::alloc::{AllocError, Global};
use std::marker::Model;

/// Up to this number, literals are compared one after the other.
const FEW: usize = 8;

/// A step, with the index of its array's literals. Contracts see the step.
#[derive(Drop)]
pub struct Ready<'a> {
    pub step: &'a Step<'a>,
    pub index: Option<Index>,
}

impl<'a> Model for Ready<'a> {
    ghost use Rattle.std.specs.Coded.{codes};
    ghost use Rattle.query_plan.specs.Plan.{Step};
    ghost use Rattle.query_plan.specs.Made.{step_of};
    ghost use Rattle.query_rows.specs.Ready.{IsReady};

    ghost Value = { Step };

    ghost coded = { Prim.hlevel codes };

    ghost view = { λ a. step_of a.step.now };

    ghost invariant = { λ a. IsReady a.index (step_of a.step.now) };
}

// The JSON value of a literal.
fn value_of(alloc: Global, literal: &Scalar) -> Result<Json, AllocError>
    ensures { IfOk result (λ json. json_of json ≡ scalar_value literal.now) }
{
    match literal {
        Scalar::Text(text) => Ok(Json::Text(Text::from_str(alloc, text.as_str())?)),
        Scalar::Num(number) => {
            let spelling = Text::from_str(alloc, number.spelling().as_str())?;
            Ok(Json::Num(Number::of(spelling)))
        }
        Scalar::Bool(value) => Ok(Json::Bool(*value)),
    }
}

fn text_of_value(alloc: Global, literal: &Scalar) -> Result<Vec<u8>, AllocError>
    ensures { IfOk result (λ text. text.items ≡ same_text (scalar_value literal.now)) }
{
    let mut text = Vec::new(alloc);
    let json = value_of(alloc, literal)?;
    append_same(alloc, &mut text, &json)?;
    Ok(text)
}

fn text_of_moment(alloc: Global, moment: Moment) -> Result<Vec<u8>, AllocError>
    ensures { IfOk result (λ text. text.items ≡ signed_decimal moment) }
{
    let mut text = Vec::new(alloc);
    append_moment(&mut text, moment)?;
    Ok(text)
}

// Stores the index under the text of the literal's value.
fn note_value(
    alloc: Global,
    index: &mut Index,
    literal: &Scalar,
    place: usize,
) -> Result<(), AllocError>
    ensures there { OnOk result ((json : JsonValue) → same json (scalar_value literal.now) ≡ true → holds_place index.new (same_text json) place) }
    ensures kept { OnOk result ((t : List ℕ) (p : ℕ) → holds_place index.old t p → holds_place index.new t p) }
{
    let text = text_of_value(alloc, literal)?;
    note(alloc, index, text, place)
}

// Stores the index under the text of the moment, if the literal is a stamp.
fn note_moment(
    alloc: Global,
    index: &mut Index,
    literal: &Scalar,
    place: usize,
) -> Result<(), AllocError>
    ensures there { OnOk result ((m : ℤ) → option_map_or (int_eq m) (moment_of literal.now) false ≡ true → holds_place index.new (signed_decimal m) place) }
    ensures kept { OnOk result ((t : List ℕ) (p : ℕ) → holds_place index.old t p → holds_place index.new t p) }
{
    match moment_of(literal) {
        Some(moment) => {
            let text = text_of_moment(alloc, moment)?;
            note(alloc, index, text, place)
        }
        None => Ok(()),
    }
}

fn note_literal(
    alloc: Global,
    index: &mut Index,
    literal: &Scalar,
    place: usize,
) -> Result<(), AllocError>
    ensures there { OnOk result ((cell : CellValue) → equals cell literal.now ≡ true → holds_place index.new (cell_text cell) place) }
    ensures kept { OnOk result ((t : List ℕ) (p : ℕ) → holds_place index.old t p → holds_place index.new t p) }
{
    note_value(alloc, index, literal, place)?;
    note_moment(alloc, index, literal, place)
}

// The index of the literals.
fn by_value(alloc: Global, keys: Keys, literals: &[Literal]) -> Result<Index, AllocError>
    ensures { IfOk result (AreLiteralsOf literals.now) }
{
    let mut index = Index::new(alloc, keys);
    for i in 0..literals.len() {
        note_literal(alloc, &mut index, &literals[i].value, i)?;
    }
    Ok(index)
}

fn is_equal_there(seen: &Seen<'_>, literals: &[Literal], place: usize) -> bool
    ensures { result ≡ passes_at (λ (l : Literal). equals (seen_value seen.now) l.value) literals.now place }
{
    match literals.get(place) {
        Some(literal) => equals(seen, &literal.value),
        None => false,
    }
}

fn is_equal_at(seen: &Seen<'_>, literals: &[Literal], places: &[usize]) -> bool
    ensures { result ≡ list_any (passes_at (λ (l : Literal). equals (seen_value seen.now) l.value) literals.now) places.now }
{
    for place in places {
        if is_equal_there(seen, literals, *place) {
            return true;
        }
    }
    false
}

fn text_of_seen(alloc: Global, seen: &Seen<'_>) -> Result<Vec<u8>, AllocError>
    ensures { IfOk result (λ text. text.items ≡ cell_text (seen_value seen.now)) }
{
    let mut text = Vec::new(alloc);
    append_seen(alloc, &mut text, seen)?;
    Ok(text)
}

/// Whether the value that a field names equals some literal, by the index of the literals.
pub(crate) fn equals_known(
    alloc: Global,
    seen: &Seen<'_>,
    literals: &[Literal],
    index: &Index,
) -> Result<bool, AllocError>
    requires { AreLiteralsOf literals.now index.now }
    ensures { IfOk result (λ b. b ≡ list_any (λ (l : Literal). equals (seen_value seen.now) l.value) literals.now) }
{
    let text = text_of_seen(alloc, seen)?;
    Ok(is_equal_at(seen, literals, places_under(index, text.as_slice())))
}

fn ready_of<'a>(alloc: Global, keys: Keys, step: &'a Step<'a>) -> Result<Ready<'a>, AllocError>
    ensures { IfOk result (λ ready. ready ≡ step_of step.now) }
{
    let index = match step {
        Step::Lists(_, literals) if literals.len() > FEW => Some(by_value(alloc, keys, literals)?),
        _ => None,
    };
    Ok(Ready { step, index })
}

/// The steps, with indices of the literals of their arrays. Texts are hashed under the keys.
pub fn ready_steps<'a>(
    alloc: Global,
    keys: Keys,
    steps: &'a [Step<'a>],
) -> Result<Vec<Ready<'a>>, AllocError>
    ensures { IfOk result (λ ready. ready.items ≡ steps_of steps.now) }
{
    let mut ready = Vec::new(alloc);
    for step in steps {
        ready.push(ready_of(alloc, keys, step)?)?;
    }
    Ok(ready)
}
