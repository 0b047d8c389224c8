//! Answers a level that only counts the rows of an entity. It reads no row.
ghost use Rattle.std.specs.Prelude.{◌≡◌, ◌∷◌, [], ℕ, List, Bool, Some, true, false, IfOk, IfSome};
ghost use Rattle.query_plan.specs.Made.{stage_of, step_of, steps_of};
ghost use Rattle.query_plan.specs.Plan.{constant};
ghost use Rattle.query_plan.specs.means_spec.Paging.{paged};
ghost use Rattle.query_plan.specs.query_spec.declared.parts.Selected.TheVariants.{Rows as RowsOf};
ghost use Rattle.query_plan.specs.table_spec.Rows.{Cells as CellsOf};
ghost use Rattle.level_answers.specs.Levels.{IsStageAnswered};
ghost use Rattle.level_answers.specs.Counting.{IsCount, a_count, counted};
ghost use Rattle.level_answers.specs.declared.answer.Answered.TheVariants.{Rows};
ghost use Rattle.query_rows.specs.Tables.{world_of};

use crate::answer::paged;
use crate::functions::count_cell;
use crate::shown::output_names;
use fleet_tables::Tables;
use fleet_tables::fleet_rows::{Cells, Entity};
use paging_text::Lines;
use query_plan::query_spec::{Paging, Selected, Selection};
use query_plan::{Shape, Stage, Step};
use std::alloc::{AllocError, Global};

fn is_true(step: &Step) -> bool
    ensures { result ≡ true → step_of step.now ≡ constant true }
{
    match step {
        Step::Constant(value) => *value,
        _ => false,
    }
}

// Whether the steps are those of a level without a filter.
fn test_nothing(steps: &[Step]) -> bool
    ensures { result ≡ true → steps_of steps.now ≡ constant true ∷ [] }
{
    match steps {
        [step] => is_true(step),
        _ => false,
    }
}

fn is_row_count(selected: &Selected) -> bool
    ensures { result ≡ true → selected.now ≡ RowsOf }
{
    match selected {
        Selected::Rows => true,
        Selected::Column(_) => false,
        Selected::Function(_, _) => false,
    }
}

fn is_a_count(shown: &[Selected]) -> bool
    ensures { result ≡ true → shown.now ≡ a_count }
{
    match shown {
        [selected] => is_row_count(selected),
        _ => false,
    }
}

fn shows_a_count(shown: &Option<Selection>) -> bool
    ensures { result ≡ true → shown.now ≡ Some a_count }
{
    match shown {
        None => false,
        Some(shown) => is_a_count(shown.as_slice()),
    }
}

// The one row of the count, after a paging.
fn count_row(
    alloc: Global,
    tables: &Tables,
    entity: Entity,
    shown: &Option<Selection>,
    paging: &Paging,
) -> Result<Lines, AllocError>
    requires { shown.now ≡ Some a_count }
    ensures { IfOk result (λ lines. lines ≡ counted tables.now entity paging.now) }
{
    let names = output_names(alloc, Some(entity), shown)?;
    let mut cells = Cells::new(alloc);
    cells.push(count_cell(alloc, tables.active_count(entity))?)?;
    let mut lines = Lines::new(alloc);
    lines.push(cells)?;
    paged(names, lines, paging)
}

// The entity and the paging of a level that only counts its rows.
fn count_of<'q>(stage: &Stage<'q>) -> Option<(Entity, &'q Option<Selection>, &'q Paging)>
    ensures { IfSome result (λ told. (told.1.now ≡ Some a_count) × IsCount (stage_of stage.now) told.0 told.2.now) }
{
    let entity = stage.entity?;
    match stage.shape {
        Shape::Whole => None,
        Shape::Answers(shown, group, paging) => {
            if stage.state
                || !group.is_empty()
                || !shows_a_count(shown)
                || !test_nothing(stage.steps.as_slice())
            {
                None
            } else {
                Some((entity, shown, paging))
            }
        }
    }
}

/// The answer of a level that only counts its rows. None for all other levels.
pub fn counted(alloc: Global, tables: &Tables, stage: &Stage) -> Result<Option<Lines>, AllocError>
    ensures { IfOk result (λ told. IfSome told (λ lines. (says : List ℕ → List ℕ → Bool) (patterns : List (List ℕ)) (found : List (List CellsOf))
        → IsStageAnswered (world_of tables.now says) patterns found (stage_of stage.now) (Rows lines))) }
{
    match count_of(stage) {
        None => Ok(None),
        Some((entity, shown, paging)) => Ok(Some(count_row(alloc, tables, entity, shown, paging)?)),
    }
}
