//! Reads rows in blocks: each pattern of the filter is tried on all texts of a block in one call.
ghost use Rattle.std.specs.Prelude.{◌≡◌, ◌++◌, ◌∷◌, ◌+◌, ◌<◌, ◌≤◌, [], ℕ, List, map, length, IfOk, IfSome, OnOk, Some, filter, slice_range, true, false};
ghost use Rattle.std.specs.List.{AllByRecursion};
ghost use Rattle.query_plan.specs.Plan.{is_chosen};
ghost use Rattle.query_plan.specs.Made.{stage_of};
ghost use Rattle.fleet_tables.specs.table_machine.Rows.{table_rows};
ghost use Rattle.query_reach.specs.Pins.{steps_facts};
ghost use Rattle.query_rows.specs.Columns.{AreGiven, AreColumns};
ghost use Rattle.query_rows.specs.Tries.{HasTried};
ghost use Rattle.query_rows.specs.Scenes.{world};
ghost use Rattle.query_rows.specs.Tables.{world_of};
ghost use Rattle.query_reading.specs.Fetched.{picked};
ghost use Rattle.query_reading.specs.Narrow.{steps_make};
ghost use Rattle.query_reading.specs.Told.{IsTold};
ghost use Rattle.row_views.specs.Narrow.{shown_as};

use crate::activity::{Told, is_seen_once};
use crate::narrow::reads_narrow;
use fleet_tables::fleet_rows::Entity;
use fleet_tables::{Steps, Tables};
use paging_text::Lines;
use pattern_port::Patterns;
use query_plan::{Stage, Step};
use query_rows::{Column, Known, Ready, Scene, columns_of, fact_rows, holds_given};
use row_views::{Cursor, KeptRow, KeptRows, View, views_of};
use std::alloc::{AllocError, Global};
use std::sync::ledger::Ledger;

// The most rows of a block, which are looked at together.
const BLOCK: usize = 1024;

// The rows at the places. Each is read once.
fn rows_at<'t, L: Ledger>(
    alloc: Global,
    tables: &'t Tables,
    entity: Entity,
    narrow: bool,
    places: &[usize],
    walk: &mut Steps<L>,
) -> Result<Vec<KeptRow<'t>>, AllocError>
    requires places { AllByRecursion (λ place. place < length (table_rows entity tables.now)) places.now }
    ensures cost { walk.new ≤ walk.old + length places.now }
    ensures value { IfOk result (λ rows. rows.items ≡ picked (table_rows entity tables.now) places.now) }
{
    let mut rows = Vec::with_capacity(alloc, places.len())?;
    let mut cursor = Cursor::new(alloc, tables, entity, narrow);
    'reading: for place in places {
        rows.push(cursor.row(*place, walk)?)?;
    }
    Ok(rows)
}

fn is_chosen_given<P: Patterns>(
    scene: &Scene,
    patterns: &mut P,
    compiled: &[P::Compiled],
    found: &[Known],
    stage: &Stage,
    steps: &[Ready],
    columns: &[Column],
    i: usize,
    row: &View<'_>,
    stack: &mut Vec<bool>,
    last: &mut Option<Told>,
) -> Result<bool, AllocError>
    requires steps { steps.now ≡ stage.now.steps }
    requires given { AreGiven scene.now (P.says patterns.old) (map (λ c. P.made_from c) compiled.now) stage.now.entity row.now steps.now columns.now i }
    requires told { IfSome last.old (IsTold scene.now.tables.now) }
    ensures told { IfSome last.new (IsTold scene.now.tables.now) }
    ensures same { (p t : List ℕ) → P.says patterns.new p t ≡ P.says patterns.old p t }
    ensures calm { P.refusals patterns.new ≡ P.refusals patterns.old }
    ensures silent { P.asked patterns.new ≡ P.asked patterns.old }
    ensures tried { HasTried (P.course patterns.old) (P.course patterns.new) }
    ensures value { IfOk result (λ b. b ≡ is_chosen (world scene.now (P.says patterns.old)) (map (λ c. P.made_from c) compiled.now) found.now
        (stage_of stage.now) row.now) }
{
    if holds_given(
        scene,
        stage.entity,
        row,
        patterns,
        compiled,
        found,
        steps,
        columns,
        i,
        stack,
    )? {
        is_seen_once(scene, stage.entity, stage.state, row, last)
    } else {
        Ok(false)
    }
}

// The same of a row of the block that is seen narrow or whole.
#[tactic(auto, using(query_rows::proofs::TryLaws::tried_nothing))]
fn is_row_chosen_given<P: Patterns>(
    scene: &Scene,
    patterns: &mut P,
    compiled: &[P::Compiled],
    found: &[Known],
    stage: &Stage,
    steps: &[Ready],
    columns: &[Column],
    i: usize,
    entity: Entity,
    narrow: bool,
    row: &KeptRow<'_>,
    stack: &mut Vec<bool>,
    last: &mut Option<Told>,
) -> Result<bool, AllocError>
    requires steps { steps.now ≡ stage.now.steps }
    requires entity { stage.now.entity ≡ Some entity }
    requires narrow { narrow ≡ true → steps_make entity stage.now.steps ≡ false }
    requires given { AreGiven scene.now (P.says patterns.old) (map (λ c. P.made_from c) compiled.now) stage.now.entity
        (shown_as narrow entity row.now) steps.now columns.now i }
    requires told { IfSome last.old (IsTold scene.now.tables.now) }
    ensures told { IfSome last.new (IsTold scene.now.tables.now) }
    ensures same { (p t : List ℕ) → P.says patterns.new p t ≡ P.says patterns.old p t }
    ensures calm { P.refusals patterns.new ≡ P.refusals patterns.old }
    ensures silent { P.asked patterns.new ≡ P.asked patterns.old }
    ensures tried { HasTried (P.course patterns.old) (P.course patterns.new) }
    ensures value { IfOk result (λ b. b ≡ is_chosen (world scene.now (P.says patterns.old)) (map (λ c. P.made_from c) compiled.now) found.now
        (stage_of stage.now) row.now) }
{
    let view = row.view(scene.alloc, entity, narrow)?;
    is_chosen_given(
        scene, patterns, compiled, found, stage, steps, columns, i, &view, stack, last,
    )
}

// Appends row `i` of a block, if the stage chooses it.
fn choose_given<'t, P: Patterns>(
    scene: &Scene,
    patterns: &mut P,
    compiled: &[P::Compiled],
    found: &[Known],
    stage: &Stage,
    steps: &[Ready],
    columns: &[Column],
    i: usize,
    entity: Entity,
    narrow: bool,
    row: KeptRow<'t>,
    stack: &mut Vec<bool>,
    last: &mut Option<Told>,
    chosen: &mut KeptRows<'t>,
) -> Result<(), AllocError>
    requires steps { steps.now ≡ stage.now.steps }
    requires entity { stage.now.entity ≡ Some entity }
    requires narrow { narrow ≡ true → steps_make entity stage.now.steps ≡ false }
    requires given { AreGiven scene.now (P.says patterns.old) (map (λ c. P.made_from c) compiled.now) stage.now.entity
        (shown_as narrow entity row) steps.now columns.now i }
    requires told { IfSome last.old (IsTold scene.now.tables.now) }
    ensures told { IfSome last.new (IsTold scene.now.tables.now) }
    ensures same { (p t : List ℕ) → P.says patterns.new p t ≡ P.says patterns.old p t }
    ensures calm { P.refusals patterns.new ≡ P.refusals patterns.old }
    ensures silent { P.asked patterns.new ≡ P.asked patterns.old }
    ensures tried { HasTried (P.course patterns.old) (P.course patterns.new) }
    ensures value { OnOk result (chosen.new ≡ chosen.old ++ filter
        (is_chosen (world scene.now (P.says patterns.old)) (map (λ c. P.made_from c) compiled.now) found.now (stage_of stage.now)) (row.entry ∷ [])) }
{
    if is_row_chosen_given(
        scene, patterns, compiled, found, stage, steps, columns, i, entity, narrow, &row, stack,
        last,
    )? {
        chosen.push(row)?;
    }
    Ok(())
}

// Appends the rows of a block that the stage chooses.
#[tactic(auto, using(query_rows::proofs::TryLaws::tried_nothing, query_rows::proofs::TryLaws::tried_then))]
fn choose_block<'t, P: Patterns>(
    scene: &Scene,
    patterns: &mut P,
    compiled: &[P::Compiled],
    found: &[Known],
    stage: &Stage,
    steps: &[Ready],
    columns: &[Column],
    entity: Entity,
    narrow: bool,
    rows: Vec<KeptRow<'t>>,
    chosen: &mut KeptRows<'t>,
) -> Result<(), AllocError>
    requires steps { steps.now ≡ stage.now.steps }
    requires entity { stage.now.entity ≡ Some entity }
    requires narrow { narrow ≡ true → steps_make entity stage.now.steps ≡ false }
    requires columns { AreColumns scene.now (P.says patterns.old) (map (λ c. P.made_from c) compiled.now) stage.now.entity
        (map (shown_as narrow entity) rows.items) steps.now columns.now }
    ensures same { (p t : List ℕ) → P.says patterns.new p t ≡ P.says patterns.old p t }
    ensures calm { P.refusals patterns.new ≡ P.refusals patterns.old }
    ensures silent { P.asked patterns.new ≡ P.asked patterns.old }
    ensures tried { HasTried (P.course patterns.old) (P.course patterns.new) }
    ensures value { OnOk result (chosen.new ≡ chosen.old ++ filter
        (is_chosen (world scene.now (P.says patterns.old)) (map (λ c. P.made_from c) compiled.now) found.now (stage_of stage.now)) rows.entry.items) }
{
    let mut stack = Vec::new(scene.alloc);
    let mut last = None;
    let mut i = 0;
    'choosing: for row in rows {
        choose_given(
            scene, patterns, compiled, found, stage, steps, columns, i, entity, narrow, row,
            &mut stack, &mut last, chosen,
        )?;
        i += 1;
    }
    Ok(())
}

// The columns of the block, from what is seen of its rows.
#[tactic(auto, using(query_rows::proofs::TryLaws::tried_nothing))]
fn tried_columns<P: Patterns>(
    scene: &Scene,
    patterns: &mut P,
    compiled: &[P::Compiled],
    stage: &Stage,
    steps: &[Ready],
    entity: Entity,
    narrow: bool,
    rows: &[KeptRow<'_>],
) -> Result<Vec<Column>, AllocError>
    ensures same { (p t : List ℕ) → P.says patterns.new p t ≡ P.says patterns.old p t }
    ensures calm { P.refusals patterns.new ≡ P.refusals patterns.old }
    ensures silent { P.asked patterns.new ≡ P.asked patterns.old }
    ensures tried { HasTried (P.course patterns.old) (P.course patterns.new) }
    ensures value { IfOk result (λ columns. AreColumns scene.now (P.says patterns.old) (map (λ c. P.made_from c) compiled.now) stage.now.entity
        (map (shown_as narrow entity) rows.now) steps.now columns.items) }
{
    let views = views_of(scene.alloc, rows, entity, narrow)?;
    let seen = views.as_slice();
    columns_of(scene, stage.entity, seen, patterns, compiled, steps)
}

fn tries_pattern(step: &Step) -> bool {
    match step {
        Step::Fits(_, _) => true,
        _ => false,
    }
}

// Whether a step tries a pattern.
fn try_patterns(steps: &[Ready]) -> bool {
    for ready in steps {
        if tries_pattern(ready.step) {
            return true;
        }
    }
    false
}

// The columns of the block. Where no step tries a pattern there are none, and nothing is looked at.
#[tactic(auto, using(query_rows::proofs::TryLaws::tried_nothing, query_rows::proofs::BlockLaws::none_left))]
fn seen_columns<P: Patterns>(
    scene: &Scene,
    patterns: &mut P,
    compiled: &[P::Compiled],
    stage: &Stage,
    steps: &[Ready],
    entity: Entity,
    narrow: bool,
    rows: &[KeptRow<'_>],
) -> Result<Vec<Column>, AllocError>
    ensures same { (p t : List ℕ) → P.says patterns.new p t ≡ P.says patterns.old p t }
    ensures calm { P.refusals patterns.new ≡ P.refusals patterns.old }
    ensures silent { P.asked patterns.new ≡ P.asked patterns.old }
    ensures tried { HasTried (P.course patterns.old) (P.course patterns.new) }
    ensures value { IfOk result (λ columns. AreColumns scene.now (P.says patterns.old) (map (λ c. P.made_from c) compiled.now) stage.now.entity
        (map (shown_as narrow entity) rows.now) steps.now columns.items) }
{
    if try_patterns(steps) {
        tried_columns(
            scene, patterns, compiled, stage, steps, entity, narrow, rows,
        )
    } else {
        Ok(Vec::new(scene.alloc))
    }
}

// Appends the rows of a block that the stage chooses, by the columns of the block.
#[tactic(auto, using(query_rows::proofs::TryLaws::tried_then))]
fn choose_tried<'t, P: Patterns>(
    scene: &Scene,
    patterns: &mut P,
    compiled: &[P::Compiled],
    found: &[Known],
    stage: &Stage,
    steps: &[Ready],
    entity: Entity,
    narrow: bool,
    rows: Vec<KeptRow<'t>>,
    chosen: &mut KeptRows<'t>,
) -> Result<(), AllocError>
    requires steps { steps.now ≡ stage.now.steps }
    requires entity { stage.now.entity ≡ Some entity }
    requires narrow { narrow ≡ true → steps_make entity stage.now.steps ≡ false }
    ensures same { (p t : List ℕ) → P.says patterns.new p t ≡ P.says patterns.old p t }
    ensures calm { P.refusals patterns.new ≡ P.refusals patterns.old }
    ensures silent { P.asked patterns.new ≡ P.asked patterns.old }
    ensures tried { HasTried (P.course patterns.old) (P.course patterns.new) }
    ensures value { OnOk result (chosen.new ≡ chosen.old ++ filter
        (is_chosen (world scene.now (P.says patterns.old)) (map (λ c. P.made_from c) compiled.now) found.now (stage_of stage.now)) rows.entry.items) }
{
    let seen = rows.as_slice();
    let columns = seen_columns(
        scene, patterns, compiled, stage, steps, entity, narrow, seen,
    )?;
    let list = columns.as_slice();
    choose_block(
        scene, patterns, compiled, found, stage, steps, list, entity, narrow, rows, chosen,
    )
}

// Reads a block, and appends its rows that the stage chooses.
#[tactic(auto, using(query_rows::proofs::TryLaws::tried_nothing))]
fn read_block<'t, L: Ledger, P: Patterns>(
    alloc: Global,
    tables: &'t Tables,
    patterns: &mut P,
    compiled: &[P::Compiled],
    found: &[Known],
    stage: &Stage,
    steps: &[Ready],
    entity: Entity,
    places: &[usize],
    chosen: &mut KeptRows<'t>,
    walk: &mut Steps<L>,
) -> Result<(), AllocError>
    requires steps { steps.now ≡ stage.now.steps }
    requires names { steps_facts stage.now.steps ≡ [] }
    requires entity { stage.now.entity ≡ Some entity }
    requires places { AllByRecursion (λ place. place < length (table_rows entity tables.now)) places.now }
    ensures same { (p t : List ℕ) → P.says patterns.new p t ≡ P.says patterns.old p t }
    ensures calm { P.refusals patterns.new ≡ P.refusals patterns.old }
    ensures silent { P.asked patterns.new ≡ P.asked patterns.old }
    ensures tried { HasTried (P.course patterns.old) (P.course patterns.new) }
    ensures cost { walk.new ≤ walk.old + length places.now }
    ensures value { OnOk result (chosen.new ≡ chosen.old ++ filter (is_chosen (world_of tables.now (P.says patterns.old))
        (map (λ c. P.made_from c) compiled.now) found.now (stage_of stage.now)) (picked (table_rows entity tables.now) places.now)) }
{
    let narrow = reads_narrow(entity, steps);
    let rows = rows_at(alloc, tables, entity, narrow, places, walk)?;
    let facts = fact_rows(alloc, patterns.keys(), Lines::new(alloc))?;
    let scene = Scene {
        alloc,
        tables,
        facts: &facts,
    };
    choose_tried(
        &scene, patterns, compiled, found, stage, steps, entity, narrow, rows, chosen,
    )
}

// Where the block that begins at `at` ends.
fn block_end(at: usize, count: usize) -> usize
    requires { at < count }
    ensures more { at < result }
    ensures within { result ≤ count }
{
    if count - at > BLOCK {
        at + BLOCK
    } else {
        count
    }
}

fn block_of(places: &[usize], at: usize, end: usize) -> &[usize]
    requires order { at ≤ end }
    requires within { end ≤ length places.now }
    ensures { result.now ≡ slice_range places.now at end }
{
    &places[at..end]
}

/// The chosen rows among those at the places, read block by block. No field of the filter names a fact.
#[tactic(auto, using(query_rows::proofs::TryLaws::tried_nothing, query_rows::proofs::TryLaws::tried_then))]
pub(crate) fn read_blocks<'t, L: Ledger, P: Patterns>(
    alloc: Global,
    tables: &'t Tables,
    patterns: &mut P,
    compiled: &[P::Compiled],
    found: &[Known],
    stage: &Stage,
    steps: &[Ready],
    entity: Entity,
    places: &[usize],
    walk: &mut Steps<L>,
) -> Result<KeptRows<'t>, AllocError>
    requires steps { steps.now ≡ stage.now.steps }
    requires names { steps_facts stage.now.steps ≡ [] }
    requires entity { stage.now.entity ≡ Some entity }
    requires places { AllByRecursion (λ place. place < length (table_rows entity tables.now)) places.now }
    ensures same { (p t : List ℕ) → P.says patterns.new p t ≡ P.says patterns.old p t }
    ensures calm { P.refusals patterns.new ≡ P.refusals patterns.old }
    ensures silent { P.asked patterns.new ≡ P.asked patterns.old }
    ensures tried { HasTried (P.course patterns.old) (P.course patterns.new) }
    ensures cost { walk.new ≤ walk.old + length places.now }
    ensures value { IfOk result (λ rows. rows ≡ filter (is_chosen (world_of tables.now (P.says patterns.old))
        (map (λ c. P.made_from c) compiled.now) found.now (stage_of stage.now)) (picked (table_rows entity tables.now) places.now)) }
{
    let mut chosen = KeptRows::new(alloc);
    let mut at = 0;
    'reading: while at < places.len() {
        let end = block_end(at, places.len());
        let block = block_of(places, at, end);
        read_block(
            alloc,
            tables,
            patterns,
            compiled,
            found,
            stage,
            steps,
            entity,
            block,
            &mut chosen,
            walk,
        )?;
        at = end;
    }
    Ok(chosen)
}
