//! Evaluates single steps of a filter on a row.
ghost use Rattle.std.specs.Prelude.{◌≡◌, ℕ, List, Bool, not, map, IfOk, IfSome, if◌then◌else◌};
ghost use Rattle.std.specs.List.{list_any};
ghost use Rattle.query_plan.specs.means_spec.Cells.{field_cell, field_compares, compares, is_null_cell, equals};
ghost use Rattle.query_plan.specs.means_spec.Means.{is_listed};
ghost use Rattle.query_plan.specs.query_spec.declared.parts.Literal.{Literal};
ghost use Rattle.query_rows.specs.Ready.{AreLiteralsOf};
ghost use Rattle.query_rows.specs.Scenes.{world, seen_cell, equals_some};
ghost use Rattle.row_views.specs.Seen.{seen_value};

use crate::cells::is_inactive;
use crate::compare::{compares as compared, equals, has_state, has_tag, is_null};
use crate::index::Index;
use crate::known::FactRows;
use crate::literals::equals_known;
use crate::seen::field_cell;
use fleet_tables::Tables;
use fleet_tables::fleet_rows::Entity;
use query_plan::query_spec::{Field, Literal, Op, Scalar};
use row_views::{Seen, View};
use std::alloc::{AllocError, Global};

/// The tables, and the rows of facts if a field may name a fact.
#[derive(Drop)]
pub struct Scene<'t> {
    pub alloc: Global,
    pub tables: &'t Tables,
    pub facts: &'t FactRows,
}

/// The value that the field names in a row.
#[tactic(auto, unfolding(crate::specs::Scenes::seen_cell))]
pub(crate) fn seen_in<'a>(
    scene: &Scene<'a>,
    entity: Option<Entity>,
    field: &Field,
    row: &'a View<'_>,
) -> Seen<'a>
    ensures { seen_value result ≡ seen_cell scene.now entity row.now field.now }
{
    field_cell(scene.facts, entity, field, row)
}

/// Whether a comparison of a field holds.
pub(crate) fn compares(
    scene: &Scene,
    entity: Option<Entity>,
    op: Op,
    field: &Field,
    literal: &Scalar,
    row: &View<'_>,
) -> Result<bool, AllocError>
    ensures { IfOk result (λ holds. (says : List ℕ → List ℕ → Bool)
        → holds ≡ field_compares (world scene.now says) entity op field.now literal.now row.now) }
{
    match field {
        Field::Tag(_) => Ok(has_tag(literal, &row.seen(entity, "tags"))),
        Field::NodeState(_) => {
            let inactive = is_inactive(scene.alloc, scene.tables, entity, row)?;
            Ok(has_state(inactive, literal))
        }
        Field::Column(_) => Ok(compares_cell(scene, entity, op, field, literal, row)),
        Field::Parameter(_) => Ok(compares_cell(scene, entity, op, field, literal, row)),
        Field::Fact(_) => Ok(compares_cell(scene, entity, op, field, literal, row)),
    }
}

// Whether a comparison of a field that names a cell holds.
fn compares_cell(
    scene: &Scene,
    entity: Option<Entity>,
    op: Op,
    field: &Field,
    literal: &Scalar,
    row: &View<'_>,
) -> bool
    ensures { result ≡ compares op (seen_cell scene.now entity row.now field.now) literal.now }
{
    compared(op, &seen_in(scene, entity, field, row), literal)
}

/// Whether the test for null gives this boolean.
pub(crate) fn tests_null(
    scene: &Scene,
    entity: Option<Entity>,
    field: &Field,
    value: bool,
    row: &View<'_>,
) -> bool
    ensures { (says : List ℕ → List ℕ → Bool)
        → result ≡ (if value then is_null_cell (field_cell (world scene.now says) entity field.now row.now)
        else not (is_null_cell (field_cell (world scene.now says) entity field.now row.now))) }
{
    null_as(value, &seen_in(scene, entity, field, row))
}

fn null_as(value: bool, seen: &Seen<'_>) -> bool
    ensures { result ≡ (if value then is_null_cell (seen_value seen.now) else not (is_null_cell (seen_value seen.now))) }
{
    let null = is_null(seen);
    if value { null } else { !null }
}

/// Whether the single cell equals some literal. `index` is the index of the literals, if there are many.
pub(crate) fn is_listed(
    scene: &Scene,
    entity: Option<Entity>,
    fields: &[Field],
    literals: &[Literal],
    index: &Option<Index>,
    row: &View<'_>,
) -> Result<bool, AllocError>
    requires { IfSome index.now (AreLiteralsOf literals.now) }
    ensures { IfOk result (λ b. (says : List ℕ → List ℕ → Bool)
        → b ≡ is_listed (world scene.now says) entity fields.now literals.now row.now) }
{
    one_of(scene, entity, fields, literals, index, row)
}

fn one_of(
    scene: &Scene,
    entity: Option<Entity>,
    fields: &[Field],
    literals: &[Literal],
    index: &Option<Index>,
    row: &View<'_>,
) -> Result<bool, AllocError>
    requires { IfSome index.now (AreLiteralsOf literals.now) }
    ensures { IfOk result (λ b. b ≡ equals_some (map (seen_cell scene.now entity row.now) fields.now) literals.now) }
{
    match fields {
        [field] => {
            let seen = seen_in(scene, entity, field, row);
            equals_one(scene.alloc, &seen, literals, index)
        }
        _ => Ok(false),
    }
}

fn equals_one(
    alloc: Global,
    seen: &Seen<'_>,
    literals: &[Literal],
    index: &Option<Index>,
) -> Result<bool, AllocError>
    requires { IfSome index.now (AreLiteralsOf literals.now) }
    ensures { IfOk result (λ b. b ≡ list_any (λ (l : Literal). equals (seen_value seen.now) l.value) literals.now) }
{
    match index {
        Some(index) => equals_known(alloc, seen, literals, index),
        None => Ok(equals_some(seen, literals)),
    }
}

fn equals_some(seen: &Seen<'_>, literals: &[Literal]) -> bool
    ensures { result ≡ list_any (λ (l : Literal). equals (seen_value seen.now) l.value) literals.now }
{
    for literal in literals {
        if equals(seen, &literal.value) {
            return true;
        }
    }
    false
}
