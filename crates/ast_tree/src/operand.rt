//! Finds faults in fields and in the values that they are compared with.
ghost use Rattle.std.specs.Prelude.{◌≡◌, not};
ghost use Rattle.std.specs.Option.{option_copied};
ghost use Rattle.query_spec.specs.Check as check;

use crate::entity::{column_named, has_facts, has_parameters, shows_moments};
use query_spec::fleet_rows::Entity;
use query_spec::stamp_time::read_stamp;
use query_spec::{Field, Literal, Name, Op, Place, Scalar, Sought};

fn unknown_column(entity: Option<Entity>, name: &Name) -> Option<&Place>
    ensures { option_copied result ≡ check.unknown_name entity name.now }
{
    if column_named(entity, name.text.as_str()).is_some() {
        None
    } else {
        Some(&name.place)
    }
}

fn unless(known: bool, place: &Place) -> Option<&Place>
    ensures { option_copied result ≡ check.at_fault (not known) place.now }
{
    if known { None } else { Some(place) }
}

/// The field's place, if the entity doesn't have the field.
pub(crate) fn unknown_field(entity: Option<Entity>, field: &Field) -> Option<&Place>
    ensures { option_copied result ≡ check.unknown_field entity field.now }
{
    match field {
        Field::Column(name) => unknown_column(entity, name),
        Field::Parameter(name) => unless(has_parameters(entity), &name.place),
        Field::Fact(name) => unless(has_facts(entity), &name.place),
        Field::Tag(place) => unless(has_parameters(entity), place),
        Field::NodeState(_) => None,
    }
}

fn is_equal(op: Op) -> bool
    ensures { result ≡ check.is_equal op }
{
    match op {
        Op::Equal => true,
        Op::Less | Op::AtMost | Op::More | Op::AtLeast => false,
    }
}

fn is_number(scalar: &Scalar) -> bool
    ensures { result ≡ check.is_number scalar.now }
{
    match scalar {
        Scalar::Num(_) => true,
        Scalar::Text(_) | Scalar::Bool(_) => false,
    }
}

fn is_stamp(scalar: &Scalar) -> bool
    ensures { result ≡ check.is_stamp scalar.now }
{
    match scalar {
        Scalar::Text(text) => read_stamp(text.as_str()).is_some(),
        Scalar::Num(_) | Scalar::Bool(_) => false,
    }
}

fn is_state(scalar: &Scalar) -> bool
    ensures { result ≡ check.is_state scalar.now }
{
    match scalar {
        Scalar::Text(text) => names_state(text.as_str()),
        Scalar::Num(_) | Scalar::Bool(_) => false,
    }
}

fn names_state(text: &str) -> bool
    ensures { result ≡ check.names_state text.now }
{
    text == "active" || text == "inactive" || text == "any"
}

fn is_text(scalar: &Scalar) -> bool
    ensures { result ≡ check.is_text scalar.now }
{
    match scalar {
        Scalar::Text(_) => true,
        Scalar::Num(_) | Scalar::Bool(_) => false,
    }
}

fn is_bad_order(op: Op, scalar: &Scalar) -> bool
    ensures { result ≡ check.is_bad_order op scalar.now }
{
    !is_equal(op) && !is_number(scalar)
}

fn is_bad_at_column(entity: Option<Entity>, op: Op, name: &Name, scalar: &Scalar) -> bool
    ensures { result ≡ check.is_bad_at_column entity op name.now scalar.now }
{
    if shows_moments(column_named(entity, name.text.as_str())) {
        !is_stamp(scalar)
    } else {
        is_bad_order(op, scalar)
    }
}

/// Whether this field can't be compared with the value by this operator.
pub(crate) fn is_bad_literal(entity: Option<Entity>, op: Op, field: &Field, scalar: &Scalar) -> bool
    ensures { result ≡ check.is_bad_literal entity op field.now scalar.now }
{
    match field {
        Field::Column(name) => is_bad_at_column(entity, op, name, scalar),
        Field::Parameter(_) | Field::Fact(_) => is_bad_order(op, scalar),
        Field::Tag(_) => !(is_equal(op) && is_text(scalar)),
        Field::NodeState(_) => !(is_equal(op) && is_state(scalar)),
    }
}

fn bad_operand(field: &Field) -> Option<&Place>
    ensures { option_copied result ≡ check.bad_operand field.now }
{
    match field {
        Field::Tag(place) | Field::NodeState(place) => Some(place),
        Field::Column(_) | Field::Parameter(_) | Field::Fact(_) => None,
    }
}

fn bad_literals<'a>(
    entity: Option<Entity>,
    field: &Field,
    literals: &'a [Literal],
) -> Option<&'a Place>
    ensures { option_copied result ≡ check.bad_literals entity field.now literals.now }
{
    for literal in literals {
        if is_bad_literal(entity, Op::Equal, field, &literal.value) {
            return Some(&literal.place);
        }
    }
    None
}

fn bad_array<'a>(
    entity: Option<Entity>,
    fields: &[Field],
    literals: &'a [Literal],
) -> Option<&'a Place>
    ensures { option_copied result ≡ check.bad_array entity fields.now literals.now }
{
    match fields {
        [] => None,
        [field, ..] => bad_literals(entity, field, literals),
    }
}

/// The first fault of the sought kind in a comparison.
pub(crate) fn compared_fault<'a>(
    sought: Sought,
    entity: Option<Entity>,
    op: Op,
    field: &'a Field,
    literal: &'a Literal,
) -> Option<&'a Place>
    ensures { option_copied result ≡ check.compared_fault sought entity op field.now literal.now }
{
    match sought {
        Sought::Entity => None,
        Sought::Field => unknown_field(entity, field),
        Sought::Operand => {
            if is_bad_literal(entity, op, field, &literal.value) {
                Some(&literal.place)
            } else {
                None
            }
        }
    }
}

/// The first fault of the sought kind in the operand of `~`, `null?` or `in`.
pub(crate) fn operand_fault(sought: Sought, entity: Option<Entity>, field: &Field) -> Option<&Place>
    ensures { option_copied result ≡ check.operand_fault sought entity field.now }
{
    match sought {
        Sought::Entity => None,
        Sought::Field => unknown_field(entity, field),
        Sought::Operand => bad_operand(field),
    }
}

pub(crate) fn operands_fault(
    sought: Sought,
    entity: Option<Entity>,
    fields: &[Field],
) -> Option<&Place>
    ensures { option_copied result ≡ check.operands_fault sought entity fields.now }
{
    for field in fields {
        if let Some(place) = operand_fault(sought, entity, field) {
            return Some(place);
        }
    }
    None
}

/// The place of the right side of `in`, if the two sides have different numbers of columns.
pub(crate) fn sides_fault<'a>(
    sought: Sought,
    fields: &[Field],
    place: &'a Place,
    columns: usize,
) -> Option<&'a Place>
    ensures { option_copied result ≡ check.sides_fault sought fields.now place.now columns }
{
    match sought {
        Sought::Operand => unless(fields.len() == columns, place),
        Sought::Entity | Sought::Field => None,
    }
}

pub(crate) fn array_fault<'a>(
    sought: Sought,
    entity: Option<Entity>,
    fields: &[Field],
    literals: &'a [Literal],
) -> Option<&'a Place>
    ensures { option_copied result ≡ check.array_fault sought entity fields.now literals.now }
{
    match sought {
        Sought::Operand => bad_array(entity, fields, literals),
        Sought::Entity | Sought::Field => None,
    }
}
