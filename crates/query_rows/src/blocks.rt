//! Runs the steps of a stage on the rows of a block. A pattern is first tried on the texts of all rows, in one call, so that the
//! reader of patterns prepares itself once for the block.
ghost use Rattle.std.specs.Prelude.{◌≡◌, ◌&&◌, ℕ, List, [], Bool, false, map, reverse, IfOk, OnOk, is_some, slice_get, Option};
ghost use Rattle.std.specs.Option.{option_map_or};
ghost use Rattle.pattern_port.specs.Course.{texts_of};
ghost use Rattle.query_plan.specs.means_spec.Cells.{field_cell, text_in};
ghost use Rattle.query_plan.specs.Made.{step_of};
ghost use Rattle.query_plan.specs.Plan.{act, fits, run, top};
ghost use Rattle.query_rows.specs.Columns.{text_or_none, given_at, text_fits, IsGiven, AreGiven, IsColumn, AreColumns};
ghost use Rattle.query_rows.specs.Scenes.{world, seen_cell};
ghost use Rattle.query_rows.specs.Tries.{HasTried};

use crate::cells::text_seen;
use crate::known::Known;
use crate::literals::Ready;
use crate::run::step_on;
use crate::scene::{Scene, seen_in};
use fleet_tables::fleet_rows::Entity;
use pattern_port::Patterns;
use query_plan::Step;
use query_plan::query_spec::Field;
use row_views::View;
use std::alloc::{AllocError, Global};

/// For each row of a block, whether the text of a step's field matches the step's pattern. It is empty if the step has no pattern.
#[derive(Drop)]
pub struct Column {
    pub(crate) truths: Vec<bool>,
}

// ---- the texts that a field names

// The text that the field names, or an empty one.
fn text_of<'a>(
    scene: &Scene<'a>,
    entity: Option<Entity>,
    field: &Field,
    row: &'a View<'_>,
) -> &'a str
    ensures { result.now ≡ text_or_none (text_in (seen_cell scene.now entity row.now field.now)) }
{
    match text_seen(seen_in(scene, entity, field, row)) {
        Some(text) => text.as_str(),
        None => "",
    }
}

fn names_text(scene: &Scene, entity: Option<Entity>, field: &Field, row: &View<'_>) -> bool
    ensures { result ≡ is_some (text_in (seen_cell scene.now entity row.now field.now)) }
{
    match text_seen(seen_in(scene, entity, field, row)) {
        Some(_) => true,
        None => false,
    }
}

fn texts_of<'a>(
    scene: &Scene<'a>,
    entity: Option<Entity>,
    field: &Field,
    rows: &'a [View<'_>],
) -> Result<Vec<&'a str>, AllocError>
    ensures { IfOk result (λ texts. texts_of texts.items ≡ map (λ row. text_or_none (text_in (seen_cell scene.now entity row field.now))) rows.now) }
{
    let mut texts = Vec::new(scene.alloc);
    for row in rows {
        texts.push(text_of(scene, entity, field, row))?;
    }
    Ok(texts)
}

// ---- columns

fn no_column(alloc: Global) -> Column
    ensures { result.truths.items ≡ [] }
{
    Column {
        truths: Vec::new(alloc),
    }
}

// The column of a field that is tested for the pattern with this number. All texts are tried in one call.
#[tactic(auto, using(crate::proofs::TryLaws::tried_nothing))]
fn tried_column<P: Patterns>(
    scene: &Scene,
    entity: Option<Entity>,
    rows: &[View<'_>],
    patterns: &mut P,
    compiled: &[P::Compiled],
    field: &Field,
    at: usize,
) -> Result<Column, AllocError>
    ensures same { (p t : List ℕ) → P.says patterns.new p t ≡ P.says patterns.old p t }
    ensures calm { P.refusals patterns.new ≡ P.refusals patterns.old }
    ensures silent { P.asked patterns.new ≡ P.asked patterns.old }
    ensures tried { HasTried (P.course patterns.old) (P.course patterns.new) }
    ensures value { IfOk result (IsColumn scene.now (P.says patterns.old) (map (λ c. P.made_from c) compiled.now) entity rows.now (fits field.now at)) }
{
    match compiled.get(at) {
        Some(pattern) => {
            let texts = texts_of(scene, entity, field, rows)?;
            let truths = patterns.matches_each(scene.alloc, pattern, texts.as_slice())?;
            Ok(Column { truths })
        }
        None => Ok(no_column(scene.alloc)),
    }
}

#[tactic(auto, using(crate::proofs::TryLaws::tried_nothing))]
fn column_of<P: Patterns>(
    scene: &Scene,
    entity: Option<Entity>,
    rows: &[View<'_>],
    patterns: &mut P,
    compiled: &[P::Compiled],
    step: &Step,
) -> Result<Column, AllocError>
    ensures same { (p t : List ℕ) → P.says patterns.new p t ≡ P.says patterns.old p t }
    ensures calm { P.refusals patterns.new ≡ P.refusals patterns.old }
    ensures silent { P.asked patterns.new ≡ P.asked patterns.old }
    ensures tried { HasTried (P.course patterns.old) (P.course patterns.new) }
    ensures value { IfOk result (IsColumn scene.now (P.says patterns.old) (map (λ c. P.made_from c) compiled.now) entity rows.now (step_of step.now)) }
{
    match step {
        Step::Fits(field, at) => {
            tried_column(scene, entity, rows, patterns, compiled, field, *at)
        }
        _ => Ok(no_column(scene.alloc)),
    }
}

/// The columns of the steps, one for each. Each pattern that a step names is tried on the texts of all rows, in order.
#[tactic(auto, using(crate::proofs::TryLaws::tried_nothing, crate::proofs::TryLaws::tried_then))]
pub fn columns_of<P: Patterns>(
    scene: &Scene,
    entity: Option<Entity>,
    rows: &[View<'_>],
    patterns: &mut P,
    compiled: &[P::Compiled],
    steps: &[Ready],
) -> Result<Vec<Column>, AllocError>
    ensures same { (p t : List ℕ) → P.says patterns.new p t ≡ P.says patterns.old p t }
    ensures calm { P.refusals patterns.new ≡ P.refusals patterns.old }
    ensures silent { P.asked patterns.new ≡ P.asked patterns.old }
    ensures tried { HasTried (P.course patterns.old) (P.course patterns.new) }
    ensures value { IfOk result (λ columns. AreColumns scene.now (P.says patterns.old) (map (λ c. P.made_from c) compiled.now) entity rows.now
        steps.now columns.items) }
{
    let mut columns = Vec::new(scene.alloc);
    for ready in steps {
        let column = column_of(scene, entity, rows, patterns, compiled, ready.step)?;
        columns.push(column)?;
    }
    Ok(columns)
}

// ---- a row of a block

fn given_at(columns: &[Column], k: usize, i: usize) -> Option<bool>
    ensures { result ≡ given_at columns.now k i }
{
    match columns.get(k) {
        Some(column) => truth_at(column, i),
        None => None,
    }
}

fn truth_at(column: &Column, i: usize) -> Option<bool>
    ensures { result ≡ slice_get column.now.truths.items i }
{
    match column.truths.get(i) {
        Some(truth) => Some(*truth),
        None => None,
    }
}

fn both(a: bool, b: bool) -> bool
    ensures { result ≡ (a && b) }
{
    a && b
}

// Whether the field names a text, and this text matches.
fn fits_given(
    scene: &Scene,
    entity: Option<Entity>,
    field: &Field,
    row: &View<'_>,
    matches: bool,
) -> bool
    ensures { (says : List ℕ → List ℕ → Bool) (ps : List (List ℕ)) (j : ℕ) → matches ≡ text_fits scene.now says ps entity row.now field.now j
        → result ≡ option_map_or (λ p. option_map_or (says p) (text_in (field_cell (world scene.now says) entity field.now row.now)) false)
        (slice_get ps j) false }
{
    both(names_text(scene, entity, field, row), matches)
}

// Applies a step. `given` has the answer of its pattern, if that was tried on the block.
#[tactic(auto, using(crate::proofs::TryLaws::tried_nothing))]
fn step_given<P: Patterns>(
    scene: &Scene,
    entity: Option<Entity>,
    row: &View<'_>,
    patterns: &mut P,
    compiled: &[P::Compiled],
    found: &[Known],
    ready: &Ready,
    given: Option<bool>,
    stack: &mut Vec<bool>,
) -> Result<(), AllocError>
    requires { IsGiven scene.now (P.says patterns.old) (map (λ c. P.made_from c) compiled.now) entity row.now given ready.now }
    ensures same { (p t : List ℕ) → P.says patterns.new p t ≡ P.says patterns.old p t }
    ensures calm { P.refusals patterns.new ≡ P.refusals patterns.old }
    ensures silent { P.asked patterns.new ≡ P.asked patterns.old }
    ensures tried { HasTried (P.course patterns.old) (P.course patterns.new) }
    ensures value { OnOk result (reverse stack.new.items ≡ act (world scene.now (P.says patterns.old))
        (map (λ c. P.made_from c) compiled.now) found.now entity row.now ready.now (reverse stack.old.items)) }
{
    match given {
        Some(matches) => match ready.step {
            Step::Fits(field, _) => {
                stack.push(fits_given(scene, entity, field, row, matches))?;
                Ok(())
            }
            _ => step_on(scene, entity, row, patterns, compiled, found, ready, stack),
        },
        None => step_on(scene, entity, row, patterns, compiled, found, ready, stack),
    }
}

/// Whether the steps hold for row `i` of a block with these columns. The stack is used for its memory alone.
#[tactic(auto, using(crate::proofs::TryLaws::tried_nothing, crate::proofs::TryLaws::tried_then))]
pub fn holds_given<P: Patterns>(
    scene: &Scene,
    entity: Option<Entity>,
    row: &View<'_>,
    patterns: &mut P,
    compiled: &[P::Compiled],
    found: &[Known],
    steps: &[Ready],
    columns: &[Column],
    i: usize,
    stack: &mut Vec<bool>,
) -> Result<bool, AllocError>
    requires { AreGiven scene.now (P.says patterns.old) (map (λ c. P.made_from c) compiled.now) entity row.now steps.now columns.now i }
    ensures same { (p t : List ℕ) → P.says patterns.new p t ≡ P.says patterns.old p t }
    ensures calm { P.refusals patterns.new ≡ P.refusals patterns.old }
    ensures silent { P.asked patterns.new ≡ P.asked patterns.old }
    ensures tried { HasTried (P.course patterns.old) (P.course patterns.new) }
    ensures value { IfOk result (λ b. b ≡ top (run (world scene.now (P.says patterns.old)) (map (λ c. P.made_from c) compiled.now) found.now entity
        row.now steps.now [])) }
{
    stack.clear();
    for k in 0..steps.len() {
        let ready = &steps[k];
        let given = given_at(columns, k, i);
        step_given(
            scene, entity, row, patterns, compiled, found, ready, given, stack,
        )?;
    }
    match stack.pop() {
        Some(b) => Ok(b),
        None => Ok(false),
    }
}
