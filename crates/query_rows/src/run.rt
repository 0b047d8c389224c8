//! Runs the steps of a stage on a row.
ghost use Rattle.std.specs.Prelude.{◌≡◌, ℕ, List, [], Bool, false, map, reverse, IfOk, OnOk, slice_get};
ghost use Rattle.std.specs.List.{list_any};
ghost use Rattle.std.specs.Option.{option_map_or};
ghost use Rattle.std.specs.Str.{bytes_eq};
ghost use Rattle.query_plan.specs.means_spec.Cells.{field_cell, equal_cells, text_in, node_in};
ghost use Rattle.query_plan.specs.means_spec.Means.{is_seen};
ghost use Rattle.query_plan.specs.Plan.{act, run, top};
ghost use Rattle.query_plan.specs.Made.{step_of};
ghost use Rattle.query_rows.specs.Tries.{HasTried};
ghost use Rattle.query_rows.specs.Ready.{IsReady};
ghost use Rattle.query_rows.specs.Scenes.{world, seen_cell};

use crate::cells::{is_inactive, text_seen};
use crate::index::Index;
use crate::known::Known;
use crate::literals::Ready;
use crate::scene::{Scene, compares, is_listed, seen_in, tests_null};
use crate::tuples::{is_among, shares_node};
use fleet_tables::fleet_rows::Entity;
use pattern_port::Patterns;
use query_plan::Step;
use query_plan::query_spec::Field;
use row_views::View;
use std::alloc::AllocError;

// Whether the text matches the pattern with this number.
#[tactic(auto, using(crate::proofs::Gets::get_map, crate::proofs::TryLaws::tried_nothing, crate::proofs::TryLaws::tried_one))]
fn is_match<P: Patterns>(
    patterns: &mut P,
    compiled: &[P::Compiled],
    at: usize,
    text: &str,
) -> Result<bool, AllocError>
    ensures same { (p t : List ℕ) → P.says patterns.new p t ≡ P.says patterns.old p t }
    ensures calm { P.refusals patterns.new ≡ P.refusals patterns.old }
    ensures silent { P.asked patterns.new ≡ P.asked patterns.old }
    ensures tried { HasTried (P.course patterns.old) (P.course patterns.new) }
    ensures value { IfOk result (λ b. b ≡ option_map_or (λ p. P.says patterns.old p text.now) (slice_get (map (λ c. P.made_from c) compiled.now) at) false) }
{
    match compiled.get(at) {
        Some(pattern) => patterns.matches(pattern, text),
        None => Ok(false),
    }
}

// Whether the field names a text that matches the pattern with this number.
#[tactic(auto, using(crate::proofs::TryLaws::tried_nothing))]
fn fits_seen<P: Patterns>(
    scene: &Scene,
    entity: Option<Entity>,
    row: &View<'_>,
    patterns: &mut P,
    compiled: &[P::Compiled],
    field: &Field,
    at: usize,
) -> Result<bool, AllocError>
    ensures same { (p t : List ℕ) → P.says patterns.new p t ≡ P.says patterns.old p t }
    ensures calm { P.refusals patterns.new ≡ P.refusals patterns.old }
    ensures silent { P.asked patterns.new ≡ P.asked patterns.old }
    ensures tried { HasTried (P.course patterns.old) (P.course patterns.new) }
    ensures value { IfOk result (λ b. b ≡ option_map_or (λ p. option_map_or (P.says patterns.old p)
        (text_in (seen_cell scene.now entity row.now field.now)) false) (slice_get (map (λ c. P.made_from c) compiled.now) at) false) }
{
    match text_seen(seen_in(scene, entity, field, row)) {
        Some(text) => is_match(patterns, compiled, at, text.as_str()),
        None => Ok(false),
    }
}

// The same result, in terms of the cell in the world of the patterns.
fn fits<P: Patterns>(
    scene: &Scene,
    entity: Option<Entity>,
    row: &View<'_>,
    patterns: &mut P,
    compiled: &[P::Compiled],
    field: &Field,
    at: usize,
) -> Result<bool, AllocError>
    ensures same { (p t : List ℕ) → P.says patterns.new p t ≡ P.says patterns.old p t }
    ensures calm { P.refusals patterns.new ≡ P.refusals patterns.old }
    ensures silent { P.asked patterns.new ≡ P.asked patterns.old }
    ensures tried { HasTried (P.course patterns.old) (P.course patterns.new) }
    ensures value { IfOk result (λ b. b ≡ option_map_or (λ p. option_map_or (P.says patterns.old p)
        (text_in (field_cell (world scene.now (P.says patterns.old)) entity field.now row.now)) false)
        (slice_get (map (λ c. P.made_from c) compiled.now) at) false) }
{
    fits_seen(scene, entity, row, patterns, compiled, field, at)
}

fn selects_seen(
    scene: &Scene,
    entity: Option<Entity>,
    row: &View<'_>,
    fields: &[Field],
    found: &[Known],
    at: usize,
) -> Result<bool, AllocError>
    ensures { IfOk result (λ b. b ≡ option_map_or (list_any (equal_cells (map (seen_cell scene.now entity row.now) fields.now)))
        (slice_get found.now at) false) }
{
    match found.get(at) {
        Some(known) => is_among(scene, entity, fields, row, known),
        None => Ok(false),
    }
}

fn selects(
    scene: &Scene,
    entity: Option<Entity>,
    row: &View<'_>,
    fields: &[Field],
    found: &[Known],
    at: usize,
) -> Result<bool, AllocError>
    ensures { IfOk result (λ b. (says : List ℕ → List ℕ → Bool)
        → b ≡ option_map_or (list_any (equal_cells (map (λ f. field_cell (world scene.now says) entity f row.now) fields.now)))
        (slice_get found.now at) false) }
{
    selects_seen(scene, entity, row, fields, found, at)
}

fn shares(
    other: Option<Entity>,
    found: &[Known],
    at: usize,
    entity: Option<Entity>,
    row: &View<'_>,
) -> bool
    ensures { result ≡ option_map_or (list_any (λ x. bytes_eq (node_in other x) (node_in entity row.now))) (slice_get found.now at) false }
{
    match found.get(at) {
        Some(known) => shares_node(other, known, entity, row),
        None => false,
    }
}

// Applies a step to the stack of booleans, whose top is last.
#[tactic(auto, using(crate::proofs::TryLaws::tried_nothing))]
fn act_on<P: Patterns>(
    scene: &Scene,
    entity: Option<Entity>,
    row: &View<'_>,
    patterns: &mut P,
    compiled: &[P::Compiled],
    found: &[Known],
    step: &Step,
    index: &Option<Index>,
    stack: &mut Vec<bool>,
) -> Result<(), AllocError>
    requires { IsReady index.now (step_of step.now) }
    ensures same { (p t : List ℕ) → P.says patterns.new p t ≡ P.says patterns.old p t }
    ensures calm { P.refusals patterns.new ≡ P.refusals patterns.old }
    ensures silent { P.asked patterns.new ≡ P.asked patterns.old }
    ensures tried { HasTried (P.course patterns.old) (P.course patterns.new) }
    ensures value { OnOk result (reverse stack.new.items ≡ act (world scene.now (P.says patterns.old))
        (map (λ c. P.made_from c) compiled.now) found.now entity row.now (step_of step.now) (reverse stack.old.items)) }
{
    match step {
        Step::Compares(op, field, literal) => {
            stack.push(compares(scene, entity, *op, field, literal, row)?)?;
        }
        Step::TestsNull(field, value) => {
            stack.push(tests_null(scene, entity, field, *value, row))?;
        }
        Step::Lists(fields, literals) => {
            stack.push(is_listed(scene, entity, fields, literals, index, row)?)?;
        }
        Step::Fits(field, at) => {
            stack.push(fits(scene, entity, row, patterns, compiled, field, *at)?)?;
        }
        Step::Selects(fields, at) => {
            stack.push(selects(scene, entity, row, fields, found, *at)?)?;
        }
        Step::SharesNode(other, at) => {
            stack.push(shares(*other, found, *at, entity, row))?;
        }
        Step::Constant(value) => stack.push(*value)?,
        Step::Invert => {
            if let Some(a) = stack.pop() {
                stack.push(!a)?;
            }
        }
        Step::Both => {
            if let Some(b) = stack.pop() {
                if let Some(a) = stack.pop() {
                    stack.push(a && b)?;
                }
            }
        }
        Step::Either => {
            if let Some(b) = stack.pop() {
                if let Some(a) = stack.pop() {
                    stack.push(a || b)?;
                }
            }
        }
    }
    Ok(())
}

// Applies a step with the index of its literals.
pub(crate) fn step_on<P: Patterns>(
    scene: &Scene,
    entity: Option<Entity>,
    row: &View<'_>,
    patterns: &mut P,
    compiled: &[P::Compiled],
    found: &[Known],
    ready: &Ready,
    stack: &mut Vec<bool>,
) -> Result<(), AllocError>
    ensures same { (p t : List ℕ) → P.says patterns.new p t ≡ P.says patterns.old p t }
    ensures calm { P.refusals patterns.new ≡ P.refusals patterns.old }
    ensures silent { P.asked patterns.new ≡ P.asked patterns.old }
    ensures tried { HasTried (P.course patterns.old) (P.course patterns.new) }
    ensures value { OnOk result (reverse stack.new.items ≡ act (world scene.now (P.says patterns.old))
        (map (λ c. P.made_from c) compiled.now) found.now entity row.now ready.now (reverse stack.old.items)) }
{
    let index = &ready.index;
    act_on(
        scene, entity, row, patterns, compiled, found, ready.step, index, stack,
    )
}

/// Whether the steps hold for the row.
#[tactic(auto, using(crate::proofs::TryLaws::tried_nothing, crate::proofs::TryLaws::tried_then))]
pub fn holds<P: Patterns>(
    scene: &Scene,
    entity: Option<Entity>,
    row: &View<'_>,
    patterns: &mut P,
    compiled: &[P::Compiled],
    found: &[Known],
    steps: &[Ready],
) -> Result<bool, AllocError>
    ensures same { (p t : List ℕ) → P.says patterns.new p t ≡ P.says patterns.old p t }
    ensures calm { P.refusals patterns.new ≡ P.refusals patterns.old }
    ensures silent { P.asked patterns.new ≡ P.asked patterns.old }
    ensures tried { HasTried (P.course patterns.old) (P.course patterns.new) }
    ensures value { IfOk result (λ b. b ≡ top (run (world scene.now (P.says patterns.old)) (map (λ c. P.made_from c) compiled.now) found.now entity
        row.now steps.now [])) }
{
    let mut stack = Vec::new(scene.alloc);
    for ready in steps {
        step_on(
            scene, entity, row, patterns, compiled, found, ready, &mut stack,
        )?;
    }
    match stack.pop() {
        Some(b) => Ok(b),
        None => Ok(false),
    }
}

/// Whether the level counts a row of the entity. A row of an inactive node counts only if the filter tests the state of nodes.
pub fn is_seen(
    scene: &Scene,
    entity: Option<Entity>,
    state: bool,
    row: &View<'_>,
) -> Result<bool, AllocError>
    ensures { IfOk result (λ b. (says : List ℕ → List ℕ → Bool) → b ≡ is_seen (world scene.now says) entity state row.now) }
{
    if state {
        return Ok(true);
    }
    Ok(!is_inactive(scene.alloc, scene.tables, entity, row)?)
}
