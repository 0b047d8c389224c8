//! Finds the rows that a stage chooses.
ghost use Rattle.std.specs.Prelude.{◌≡◌, ◌++◌, ◌∷◌, ◌+◌, ◌*◌, ◌<◌, ◌≤◌, [], ℕ, List, map, length, IfOk, OnOk, Some, None, filter, true, false};
ghost use Rattle.std.specs.List.{AllByRecursion};
ghost use Rattle.query_plan.specs.Plan.{chosen_rows, is_chosen};
ghost use Rattle.query_plan.specs.Made.{stage_of};
ghost use Rattle.query_plan.specs.table_spec.Rows.{Cells as CellsValue};
ghost use Rattle.fleet_tables.specs.table_machine.Rows.{table_rows};
ghost use Rattle.query_reach.specs.Reach.{is_found, reach};
ghost use Rattle.query_reach.specs.Pins.{steps_facts};
ghost use Rattle.query_reach.specs.Seen.{texts_seen};
ghost use Rattle.query_rows.specs.Tries.{HasTried};
ghost use Rattle.query_rows.specs.Scenes.{world};
ghost use Rattle.query_rows.specs.Tables.{world_of};
ghost use Rattle.query_reading.specs.Fetched.{picked, slice_one};
ghost use Rattle.query_reading.specs.Joins.{Joins, step_join};
ghost use Rattle.query_reading.specs.Narrow.{steps_make};
ghost use Rattle.query_reading.specs.Stopping.{first_of};

use crate::blocks::read_blocks;
use crate::facts::facts_for;
use crate::joins::Nodes;
use crate::narrow::reads_narrow;
use crate::reading::{places_for, reads_front};
use crate::stopping::suffices;
use fleet_tables::fleet_rows::Entity;
use fleet_tables::{Steps, Tables};
use pattern_port::Patterns;
use query_plan::Stage;
use query_reach::Pins;
use query_rows::{Known, Ready, Scene, holds, is_seen};
use row_views::{KeptRow, KeptRows, View, kept_row};
use same_text::json_tree::Text;
use std::alloc::{AllocError, Global};
use std::sync::ledger::Ledger;

fn is_chosen<P: Patterns>(
    scene: &Scene,
    patterns: &mut P,
    compiled: &[P::Compiled],
    found: &[Known],
    stage: &Stage,
    steps: &[Ready],
    row: &View<'_>,
) -> Result<bool, AllocError>
    requires { steps.now ≡ stage.now.steps }
    ensures same { (p t : List ℕ) → P.says patterns.new p t ≡ P.says patterns.old p t }
    ensures calm { P.refusals patterns.new ≡ P.refusals patterns.old }
    ensures silent { P.asked patterns.new ≡ P.asked patterns.old }
    ensures tried { HasTried (P.course patterns.old) (P.course patterns.new) }
    ensures value { IfOk result (λ b. b ≡ is_chosen (world scene.now (P.says patterns.old)) (map (λ c. P.made_from c) compiled.now) found.now
        (stage_of stage.now) row.now) }
{
    if holds(scene, stage.entity, row, patterns, compiled, found, steps)? {
        is_seen(scene, stage.entity, stage.state, row)
    } else {
        Ok(false)
    }
}

// The same of a row that is seen narrow or whole.
#[tactic(auto, using(query_rows::proofs::TryLaws::tried_nothing))]
fn is_row_chosen<P: Patterns>(
    scene: &Scene,
    patterns: &mut P,
    compiled: &[P::Compiled],
    found: &[Known],
    stage: &Stage,
    steps: &[Ready],
    entity: Entity,
    narrow: bool,
    row: &KeptRow<'_>,
) -> Result<bool, AllocError>
    requires steps { steps.now ≡ stage.now.steps }
    requires entity { stage.now.entity ≡ Some entity }
    requires narrow { narrow ≡ true → steps_make entity stage.now.steps ≡ false }
    ensures same { (p t : List ℕ) → P.says patterns.new p t ≡ P.says patterns.old p t }
    ensures calm { P.refusals patterns.new ≡ P.refusals patterns.old }
    ensures silent { P.asked patterns.new ≡ P.asked patterns.old }
    ensures tried { HasTried (P.course patterns.old) (P.course patterns.new) }
    ensures value { IfOk result (λ b. b ≡ is_chosen (world scene.now (P.says patterns.old)) (map (λ c. P.made_from c) compiled.now) found.now
        (stage_of stage.now) row.now) }
{
    let view = row.view(scene.alloc, entity, narrow)?;
    is_chosen(scene, patterns, compiled, found, stage, steps, &view)
}

// Appends the row, if the stage chooses it.
fn choose<'t, P: Patterns>(
    scene: &Scene,
    patterns: &mut P,
    compiled: &[P::Compiled],
    found: &[Known],
    stage: &Stage,
    steps: &[Ready],
    entity: Entity,
    narrow: bool,
    row: KeptRow<'t>,
    chosen: &mut KeptRows<'t>,
) -> Result<(), AllocError>
    requires steps { steps.now ≡ stage.now.steps }
    requires entity { stage.now.entity ≡ Some entity }
    requires narrow { narrow ≡ true → steps_make entity stage.now.steps ≡ false }
    ensures same { (p t : List ℕ) → P.says patterns.new p t ≡ P.says patterns.old p t }
    ensures calm { P.refusals patterns.new ≡ P.refusals patterns.old }
    ensures silent { P.asked patterns.new ≡ P.asked patterns.old }
    ensures tried { HasTried (P.course patterns.old) (P.course patterns.new) }
    ensures value { OnOk result (chosen.new ≡ chosen.old ++ filter
        (is_chosen (world scene.now (P.says patterns.old)) (map (λ c. P.made_from c) compiled.now) found.now (stage_of stage.now)) (row.entry ∷ [])) }
{
    if is_row_chosen(
        scene, patterns, compiled, found, stage, steps, entity, narrow, &row,
    )? {
        chosen.push(row)?;
    }
    Ok(())
}

// Appends the row at a place if the stage chooses it. It reads the row, and a row for each fact that the stage's filter names.
#[tactic(auto, using(query_rows::proofs::TryLaws::tried_nothing))]
fn choose_at<'t, L: Ledger, P: Patterns>(
    alloc: Global,
    tables: &'t Tables,
    patterns: &mut P,
    compiled: &[P::Compiled],
    found: &[Known],
    stage: &Stage,
    steps: &[Ready],
    names: &[&Text],
    entity: Entity,
    place: usize,
    chosen: &mut KeptRows<'t>,
    walk: &mut Steps<L>,
) -> Result<(), AllocError>
    requires steps { steps.now ≡ stage.now.steps }
    requires names { texts_seen names.now ≡ steps_facts stage.now.steps }
    requires entity { stage.now.entity ≡ Some entity }
    requires place { place < length (table_rows entity tables.now) }
    ensures same { (p t : List ℕ) → P.says patterns.new p t ≡ P.says patterns.old p t }
    ensures calm { P.refusals patterns.new ≡ P.refusals patterns.old }
    ensures silent { P.asked patterns.new ≡ P.asked patterns.old }
    ensures tried { HasTried (P.course patterns.old) (P.course patterns.new) }
    ensures cost { walk.new ≤ walk.old + (1 + length names.now) }
    ensures value { OnOk result (chosen.new ≡ chosen.old ++ filter (is_chosen (world_of tables.now (P.says patterns.old))
        (map (λ c. P.made_from c) compiled.now) found.now (stage_of stage.now)) (slice_one (table_rows entity tables.now) place)) }
{
    let narrow = reads_narrow(entity, steps);
    let row = kept_row(alloc, tables, entity, place, narrow, walk)?;
    let keys = patterns.keys();
    let facts = facts_for(alloc, keys, tables, entity, narrow, &row, names, walk)?;
    let scene = Scene {
        alloc,
        tables,
        facts: &facts,
    };
    choose(
        &scene, patterns, compiled, found, stage, steps, entity, narrow, row, chosen,
    )
}

// The first chosen rows among those at the places, as many as suffice. Each place is read at most once, and none behind the last
// of these rows.
#[tactic(auto, using(query_rows::proofs::TryLaws::tried_nothing, query_rows::proofs::TryLaws::tried_then))]
fn read_each<'t, L: Ledger, P: Patterns>(
    alloc: Global,
    tables: &'t Tables,
    patterns: &mut P,
    compiled: &[P::Compiled],
    found: &[Known],
    stage: &Stage,
    steps: &[Ready],
    names: &[&Text],
    entity: Entity,
    places: &[usize],
    enough: Option<usize>,
    walk: &mut Steps<L>,
) -> Result<KeptRows<'t>, AllocError>
    requires steps { steps.now ≡ stage.now.steps }
    requires names { texts_seen names.now ≡ steps_facts stage.now.steps }
    requires entity { stage.now.entity ≡ Some entity }
    requires places { AllByRecursion (λ place. place < length (table_rows entity tables.now)) places.now }
    ensures same { (p t : List ℕ) → P.says patterns.new p t ≡ P.says patterns.old p t }
    ensures calm { P.refusals patterns.new ≡ P.refusals patterns.old }
    ensures silent { P.asked patterns.new ≡ P.asked patterns.old }
    ensures tried { HasTried (P.course patterns.old) (P.course patterns.new) }
    ensures cost { walk.new ≤ walk.old + length places.now * (1 + length names.now) }
    ensures value { IfOk result (λ rows. rows ≡ first_of enough (filter (is_chosen (world_of tables.now (P.says patterns.old))
        (map (λ c. P.made_from c) compiled.now) found.now (stage_of stage.now)) (picked (table_rows entity tables.now) places.now))) }
{
    let mut chosen = KeptRows::new(alloc);
    'reading: for place in places {
        if suffices(&chosen, enough) {
            return Ok(chosen);
        }
        choose_at(
            alloc,
            tables,
            patterns,
            compiled,
            found,
            stage,
            steps,
            names,
            entity,
            *place,
            &mut chosen,
            walk,
        )?;
    }
    Ok(chosen)
}

// Whether rows are read in blocks: no field names a fact, and all of them are asked for.
fn goes_by_blocks(names: &[&Text], enough: Option<usize>) -> bool
    ensures names { result ≡ true → names.now ≡ [] }
    ensures all { result ≡ true → enough ≡ None }
{
    match names {
        [] => match enough {
            None => true,
            Some(_) => false,
        },
        _ => false,
    }
}

// The first chosen rows among those at the places, read in blocks or one by one.
fn read_places<'t, L: Ledger, P: Patterns>(
    alloc: Global,
    tables: &'t Tables,
    patterns: &mut P,
    compiled: &[P::Compiled],
    found: &[Known],
    stage: &Stage,
    steps: &[Ready],
    names: &[&Text],
    entity: Entity,
    places: &[usize],
    enough: Option<usize>,
    walk: &mut Steps<L>,
) -> Result<KeptRows<'t>, AllocError>
    requires steps { steps.now ≡ stage.now.steps }
    requires names { texts_seen names.now ≡ steps_facts stage.now.steps }
    requires entity { stage.now.entity ≡ Some entity }
    requires places { AllByRecursion (λ place. place < length (table_rows entity tables.now)) places.now }
    ensures same { (p t : List ℕ) → P.says patterns.new p t ≡ P.says patterns.old p t }
    ensures calm { P.refusals patterns.new ≡ P.refusals patterns.old }
    ensures silent { P.asked patterns.new ≡ P.asked patterns.old }
    ensures tried { HasTried (P.course patterns.old) (P.course patterns.new) }
    ensures cost { walk.new ≤ walk.old + length places.now * (1 + length names.now) }
    ensures value { IfOk result (λ rows. rows ≡ first_of enough (filter (is_chosen (world_of tables.now (P.says patterns.old))
        (map (λ c. P.made_from c) compiled.now) found.now (stage_of stage.now)) (picked (table_rows entity tables.now) places.now))) }
{
    if goes_by_blocks(names, enough) {
        read_blocks(
            alloc, tables, patterns, compiled, found, stage, steps, entity, places, walk,
        )
    } else {
        read_each(
            alloc, tables, patterns, compiled, found, stage, steps, names, entity, places, enough,
            walk,
        )
    }
}

// The same among all rows, from the first one on.
#[tactic(auto, using(query_rows::proofs::TryLaws::tried_nothing, query_rows::proofs::TryLaws::tried_then))]
fn read_front<'t, L: Ledger, P: Patterns>(
    alloc: Global,
    tables: &'t Tables,
    patterns: &mut P,
    compiled: &[P::Compiled],
    found: &[Known],
    stage: &Stage,
    steps: &[Ready],
    names: &[&Text],
    entity: Entity,
    enough: Option<usize>,
    walk: &mut Steps<L>,
) -> Result<KeptRows<'t>, AllocError>
    requires steps { steps.now ≡ stage.now.steps }
    requires names { texts_seen names.now ≡ steps_facts stage.now.steps }
    requires entity { stage.now.entity ≡ Some entity }
    ensures same { (p t : List ℕ) → P.says patterns.new p t ≡ P.says patterns.old p t }
    ensures calm { P.refusals patterns.new ≡ P.refusals patterns.old }
    ensures silent { P.asked patterns.new ≡ P.asked patterns.old }
    ensures tried { HasTried (P.course patterns.old) (P.course patterns.new) }
    ensures cost { walk.new ≤ walk.old + length (table_rows entity tables.now) * (1 + length names.now) }
    ensures value { IfOk result (λ rows. rows ≡ first_of enough (filter (is_chosen (world_of tables.now (P.says patterns.old))
        (map (λ c. P.made_from c) compiled.now) found.now (stage_of stage.now)) (table_rows entity tables.now))) }
{
    let mut chosen = KeptRows::new(alloc);
    'reading: for place in 0..tables.count(entity) {
        if suffices(&chosen, enough) {
            return Ok(chosen);
        }
        choose_at(
            alloc,
            tables,
            patterns,
            compiled,
            found,
            stage,
            steps,
            names,
            entity,
            place,
            &mut chosen,
            walk,
        )?;
    }
    Ok(chosen)
}

// The first chosen rows of an entity, read by the places of the rows in reach.
fn chosen_by_places<'t, L: Ledger, P: Patterns>(
    alloc: Global,
    tables: &'t Tables,
    patterns: &mut P,
    compiled: &[P::Compiled],
    found: &[Known],
    stage: &Stage,
    steps: &[Ready],
    names: &[&Text],
    pins: &Pins,
    nodes: &Nodes,
    entity: Entity,
    enough: Option<usize>,
    walk: &mut Steps<L>,
) -> Result<KeptRows<'t>, AllocError>
    requires steps { steps.now ≡ stage.now.steps }
    requires names { texts_seen names.now ≡ steps_facts stage.now.steps }
    requires entity { stage.now.entity ≡ Some entity }
    requires implied { (row : CellsValue) → is_chosen (world_of tables.now (P.says patterns.old)) (map (λ c. P.made_from c) compiled.now) found.now
        (stage_of stage.now) row ≡ true → is_found (Some entity) pins.now row ≡ true }
    requires joined { nodes.now.joined ≡ true → Joins (step_join stage.now.steps) found.now (texts_seen nodes.now.list.items) }
    ensures same { (p t : List ℕ) → P.says patterns.new p t ≡ P.says patterns.old p t }
    ensures calm { P.refusals patterns.new ≡ P.refusals patterns.old }
    ensures silent { P.asked patterns.new ≡ P.asked patterns.old }
    ensures tried { HasTried (P.course patterns.old) (P.course patterns.new) }
    ensures cost { walk.new ≤ walk.old + length (filter (is_found (Some entity) pins.now) (table_rows entity tables.now)) * (1 + length names.now) }
    ensures value { IfOk result (λ rows. rows ≡ first_of enough (filter (is_chosen (world_of tables.now (P.says patterns.old))
        (map (λ c. P.made_from c) compiled.now) found.now (stage_of stage.now)) (table_rows entity tables.now))) }
{
    let places = places_for(alloc, tables, entity, pins.as_slice(), nodes)?;
    read_places(
        alloc,
        tables,
        patterns,
        compiled,
        found,
        stage,
        steps,
        names,
        entity,
        places.as_slice(),
        enough,
        walk,
    )
}

// The first chosen rows of an entity.
fn chosen_of<'t, L: Ledger, P: Patterns>(
    alloc: Global,
    tables: &'t Tables,
    patterns: &mut P,
    compiled: &[P::Compiled],
    found: &[Known],
    stage: &Stage,
    steps: &[Ready],
    names: &[&Text],
    pins: &Pins,
    nodes: &Nodes,
    entity: Entity,
    enough: Option<usize>,
    walk: &mut Steps<L>,
) -> Result<KeptRows<'t>, AllocError>
    requires steps { steps.now ≡ stage.now.steps }
    requires names { texts_seen names.now ≡ steps_facts stage.now.steps }
    requires entity { stage.now.entity ≡ Some entity }
    requires implied { (row : CellsValue) → is_chosen (world_of tables.now (P.says patterns.old)) (map (λ c. P.made_from c) compiled.now) found.now
        (stage_of stage.now) row ≡ true → is_found (Some entity) pins.now row ≡ true }
    requires joined { nodes.now.joined ≡ true → Joins (step_join stage.now.steps) found.now (texts_seen nodes.now.list.items) }
    ensures same { (p t : List ℕ) → P.says patterns.new p t ≡ P.says patterns.old p t }
    ensures calm { P.refusals patterns.new ≡ P.refusals patterns.old }
    ensures silent { P.asked patterns.new ≡ P.asked patterns.old }
    ensures tried { HasTried (P.course patterns.old) (P.course patterns.new) }
    ensures cost { walk.new ≤ walk.old + length (filter (is_found (Some entity) pins.now) (table_rows entity tables.now)) * (1 + length names.now) }
    ensures value { IfOk result (λ rows. rows ≡ first_of enough (filter (is_chosen (world_of tables.now (P.says patterns.old))
        (map (λ c. P.made_from c) compiled.now) found.now (stage_of stage.now)) (table_rows entity tables.now))) }
{
    if reads_front(entity, pins, nodes, enough) {
        read_front(
            alloc, tables, patterns, compiled, found, stage, steps, names, entity, enough, walk,
        )
    } else {
        chosen_by_places(
            alloc, tables, patterns, compiled, found, stage, steps, names, pins, nodes, entity,
            enough, walk,
        )
    }
}

/// The first of the rows that the stage chooses, as many as suffice. `found` has the rows of the levels before it. Only rows in
/// reach of the pins are read, and of the nodes alone if the stage is limited to them.
#[tactic(auto, using(query_rows::proofs::TryLaws::tried_nothing))]
pub fn chosen_rows<'t, L: Ledger, P: Patterns>(
    alloc: Global,
    tables: &'t Tables,
    patterns: &mut P,
    compiled: &[P::Compiled],
    found: &[Known],
    stage: &Stage,
    steps: &[Ready],
    names: &[&Text],
    pins: &Pins,
    nodes: &Nodes,
    enough: Option<usize>,
    walk: &mut Steps<L>,
) -> Result<KeptRows<'t>, AllocError>
    requires steps { steps.now ≡ stage.now.steps }
    requires names { texts_seen names.now ≡ steps_facts stage.now.steps }
    requires implied { (row : CellsValue) → is_chosen (world_of tables.now (P.says patterns.old)) (map (λ c. P.made_from c) compiled.now) found.now
        (stage_of stage.now) row ≡ true → is_found stage.now.entity pins.now row ≡ true }
    requires joined { nodes.now.joined ≡ true → Joins (step_join stage.now.steps) found.now (texts_seen nodes.now.list.items) }
    ensures same { (p t : List ℕ) → P.says patterns.new p t ≡ P.says patterns.old p t }
    ensures calm { P.refusals patterns.new ≡ P.refusals patterns.old }
    ensures silent { P.asked patterns.new ≡ P.asked patterns.old }
    ensures tried { HasTried (P.course patterns.old) (P.course patterns.new) }
    ensures cost { walk.new ≤ walk.old + reach (λ e. table_rows e tables.now) stage.now.entity pins.now * (1 + length names.now) }
    ensures value { IfOk result (λ rows. rows ≡ first_of enough (chosen_rows (world_of tables.now (P.says patterns.old))
        (map (λ c. P.made_from c) compiled.now) found.now (stage_of stage.now))) }
{
    match stage.entity {
        None => Ok(KeptRows::new(alloc)),
        Some(entity) => chosen_of(
            alloc, tables, patterns, compiled, found, stage, steps, names, pins, nodes, entity,
            enough, walk,
        ),
    }
}
