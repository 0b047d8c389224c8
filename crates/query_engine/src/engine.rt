//! Selects the rows of a query.
ghost use Rattle.std.specs.Prelude.{◌≡◌, ◌<◌, ◌≤◌, ◌+◌, ◌++◌, ◌∷◌, [], ℕ, List, IfOk, IfErr, map};
ghost use Rattle.pattern_port.specs.fleet_ports.Counts.{Counts};
ghost use Rattle.fleet_tables.specs.fleet_rows.Cell.{CellValue};
ghost use Rattle.fleet_tables.specs.Stands.{Stands};
ghost use Rattle.fleet_tables.specs.history_spec.Trace.{Trace};
ghost use Rattle.fleet_tables.specs.table_machine.Rows.{table_rows};
ghost use Rattle.query_plan.specs.means_spec.OutRows.{names_of};
ghost use Rattle.query_plan.specs.means_spec.World as spec;
ghost use Rattle.query_plan.specs.Made.{IsPlanOf, stage_of, stages_of, patterns_of};
ghost use Rattle.query_plan.specs.Plan.{level_patterns, pattern_texts};
ghost use Rattle.query_reach.specs.Reach.{level_bound};
ghost use Rattle.query_reach.specs.Pins.{stage_reads, stages_read};
ghost use Rattle.level_answers.specs.Levels.{IsStageAnswered};
ghost use Rattle.query_engine.specs.Answers.{IsSolved, MatchPicked, IsBadPattern, IsPatternFault, AreAsked};
ghost use Rattle.query_engine.specs.Courses.{HasRead, IsCourse};
ghost use Rattle.query_rows.specs.Tries.{HasTried};
ghost use Rattle.query_rows.specs.Tables.{world_of};
ghost use Rattle.query_reading.specs.declared.reading.Reading.TheVariants.{InReach};
ghost use Rattle.query_engine.specs.declared.engine.QueryFault.TheVariants.{Memory};

use crate::narrow::{answer_from, whole_from};
use fleet_tables::fleet_rows::Names;
use fleet_tables::{Steps, Tables};
use level_answers::{Answered, OutRows, counted, output_names};
use pattern_port::{PatternFault, Patterns};
use query_plan::ast_tree::{Level, Query, entity_of};
use query_plan::query_spec::{Path, Pattern, Place};
use query_plan::{Plan, Shape, Stage, plan_of};
use query_reach::facts_of;
use query_reading::{Reading, chosen_rows, enough_for, nodes_for, pins_for};
use query_rows::{Known, known_of, ready_steps};
use std::alloc::{AllocError, AllocFailed, Global};
use std::marker::Brand;
use std::sync::ledger::{Blank, Ledger};

/// The rows that a query selects, with the names of their columns.
#[derive(Drop)]
pub struct Picked {
    pub rows: OutRows,
}

/// Why a query has no rows as its answer.
#[derive(Drop)]
pub enum QueryFault {
    /// The pattern at this place was refused.
    BadPattern(Path),
    /// The sum of the column at this place overflows 128 bits, in units of 10^-18.
    SumTooLarge(Path),
    /// There was no memory.
    Memory,
}

impl From<AllocError> for QueryFault {
    ghost from_gives = { λ _ e. e ≡ Memory };

    fn from(_e: AllocError) -> QueryFault {
        QueryFault::Memory
    }
}

impl<T: Drop> From<AllocFailed<T>> for QueryFault {
    ghost from_gives = { λ _ e. e ≡ Memory };

    fn from(_e: AllocFailed<T>) -> QueryFault {
        QueryFault::Memory
    }
}

// Compiles each pattern once, in order.
fn compile_all<P: Patterns>(
    alloc: Global,
    patterns: &mut P,
    list: &[&Pattern],
) -> Result<Vec<P::Compiled>, QueryFault>
    ensures same { (p t : List ℕ) → P.says patterns.new p t ≡ P.says patterns.old p t }
    ensures made { IfOk result (λ v. map (λ c. P.made_from c) v.items ≡ pattern_texts (patterns_of list.now)) }
    ensures fault { IfErr result (IsPatternFault (patterns_of list.now)) }
    ensures cause { Counts (P.refusals patterns.old) (P.refusals patterns.new) (IsBadPattern result) }
    ensures asked { AreAsked (patterns_of list.now) (P.asked patterns.old) (P.asked patterns.new) result }
    ensures course { HasRead (patterns_of list.now) (P.course patterns.old) (P.course patterns.new) result }
{
    let mut compiled = Vec::new(alloc);
    for pattern in list {
        match patterns.compile(pattern.text.as_str()) {
            Ok(made) => compiled.push(made)?,
            Err(PatternFault::Refused) => {
                return Err(QueryFault::BadPattern(pattern.place.path()));
            }
            Err(PatternFault::Memory) => return Err(QueryFault::Memory),
        }
    }
    Ok(compiled)
}

// The rows of a stage that reads rows. `found` has the rows of the stages before it.
#[tactic(auto, using(query_rows::proofs::TryLaws::tried_nothing))]
fn read_rows<'q, L: Ledger, P: Patterns>(
    alloc: Global,
    tables: &Tables,
    patterns: &mut P,
    compiled: &[P::Compiled],
    found: &[Known],
    stage: &Stage<'q>,
    reading: Reading,
    walk: &mut Steps<L>,
) -> Result<Answered<'q>, AllocError>
    ensures same { (p t : List ℕ) → P.says patterns.new p t ≡ P.says patterns.old p t }
    ensures calm { P.refusals patterns.new ≡ P.refusals patterns.old }
    ensures silent { P.asked patterns.new ≡ P.asked patterns.old }
    ensures tried { HasTried (P.course patterns.old) (P.course patterns.new) }
    ensures cost { reading ≡ InReach → walk.new ≤ walk.old + stage_reads (λ e. table_rows e tables.now) (stage_of stage.now) }
    ensures value { IfOk result (IsStageAnswered (world_of tables.now (P.says patterns.old)) (map (λ c. P.made_from c) compiled.now) found.now
        (stage_of stage.now)) }
{
    let list = stage.steps.as_slice();
    let ready = ready_steps(alloc, patterns.keys(), list)?;
    let names = facts_of(alloc, list)?;
    let pins = pins_for(alloc, reading, list)?;
    let nodes = nodes_for(alloc, tables, reading, list, found)?;
    let steps = ready.as_slice();
    let named = names.as_slice();
    let enough = enough_for(tables, stage);
    let rows = chosen_rows(
        alloc, tables, patterns, compiled, found, stage, steps, named, &pins, &nodes, enough, walk,
    )?;
    match stage.shape {
        Shape::Whole => whole_from(alloc, rows),
        Shape::Answers(shown, group, paging) => {
            answer_from(
                alloc,
                patterns.keys(),
                stage.entity,
                shown,
                group,
                paging,
                rows,
            )
        }
    }
}

// The rows of a stage. One that only counts them reads none.
#[tactic(auto, using(query_rows::proofs::TryLaws::tried_nothing))]
fn stage_rows<'q, L: Ledger, P: Patterns>(
    alloc: Global,
    tables: &Tables,
    patterns: &mut P,
    compiled: &[P::Compiled],
    found: &[Known],
    stage: &Stage<'q>,
    reading: Reading,
    walk: &mut Steps<L>,
) -> Result<Answered<'q>, AllocError>
    ensures same { (p t : List ℕ) → P.says patterns.new p t ≡ P.says patterns.old p t }
    ensures calm { P.refusals patterns.new ≡ P.refusals patterns.old }
    ensures silent { P.asked patterns.new ≡ P.asked patterns.old }
    ensures tried { HasTried (P.course patterns.old) (P.course patterns.new) }
    ensures cost { reading ≡ InReach → walk.new ≤ walk.old + stage_reads (λ e. table_rows e tables.now) (stage_of stage.now) }
    ensures value { IfOk result (IsStageAnswered (world_of tables.now (P.says patterns.old)) (map (λ c. P.made_from c) compiled.now) found.now
        (stage_of stage.now)) }
{
    match counted(alloc, tables, stage)? {
        Some(rows) => Ok(Answered::Rows(rows)),
        None => read_rows(
            alloc, tables, patterns, compiled, found, stage, reading, walk,
        ),
    }
}

/// The rows of each level, or the place of the first sum that is too large.
#[derive(Drop)]
enum Solved<'q> {
    Found(Vec<Known>),
    TooLarge(&'q Place),
}

// The rows of each stage, inner levels first.
#[tactic(auto, using(query_rows::proofs::TryLaws::tried_nothing, query_rows::proofs::TryLaws::tried_then))]
fn solve<'q, L: Ledger, P: Patterns>(
    alloc: Global,
    tables: &Tables,
    patterns: &mut P,
    compiled: &[P::Compiled],
    stages: &[Stage<'q>],
    reading: Reading,
    walk: &mut Steps<L>,
) -> Result<Solved<'q>, AllocError>
    ensures same { (p t : List ℕ) → P.says patterns.new p t ≡ P.says patterns.old p t }
    ensures calm { P.refusals patterns.new ≡ P.refusals patterns.old }
    ensures silent { P.asked patterns.new ≡ P.asked patterns.old }
    ensures tried { HasTried (P.course patterns.old) (P.course patterns.new) }
    ensures cost { reading ≡ InReach → walk.new ≤ walk.old + stages_read (λ e. table_rows e tables.now) (stages_of stages.now) }
    ensures value { IfOk result (IsSolved (world_of tables.now (P.says patterns.old)) (map (λ c. P.made_from c) compiled.now) (stages_of stages.now)) }
{
    let mut found = Vec::new(alloc);
    for stage in stages {
        let answer = stage_rows(
            alloc,
            tables,
            patterns,
            compiled,
            found.as_slice(),
            stage,
            reading,
            walk,
        )?;
        match answer {
            Answered::Rows(rows) => {
                let last = found.len() + 1 == stages.len();
                found.push(known_of(alloc, patterns.keys(), stage, last, rows)?)?;
            }
            Answered::TooLarge(place) => return Ok(Solved::TooLarge(place)),
        }
    }
    Ok(Solved::Found(found))
}

// The names of the columns that a level shows.
fn level_names(alloc: Global, level: &Level) -> Result<Names, AllocError>
    ensures { IfOk result (λ names. names ≡ names_of level.now) }
{
    let (entity, shown, _, _, _) = level.parts();
    output_names(alloc, entity_of(entity.text.as_str()), shown)
}

// The answer of a query whose patterns are compiled.
fn answered<L: Ledger, P: Patterns>(
    alloc: Global,
    tables: &Tables,
    query: &Level,
    plan: &Plan,
    patterns: &mut P,
    compiled: &[P::Compiled],
    reading: Reading,
    walk: &mut Steps<L>,
) -> Result<Picked, QueryFault>
    requires plan { IsPlanOf query.now plan.now }
    requires compiled { map (λ c. P.made_from c) compiled.now ≡ pattern_texts (level_patterns query.now) }
    ensures same { (p t : List ℕ) → P.says patterns.new p t ≡ P.says patterns.old p t }
    ensures calm { P.refusals patterns.new ≡ P.refusals patterns.old }
    ensures silent { P.asked patterns.new ≡ P.asked patterns.old }
    ensures tried { HasTried (P.course patterns.old) (P.course patterns.new) }
    ensures answer { MatchPicked (world_of tables.now (P.says patterns.old)) query.now result }
    ensures read { ¬ IsBadPattern result }
    ensures bound { reading ≡ InReach → walk.new ≤ walk.old + level_bound (λ e. table_rows e tables.now) query.now }
{
    let stages = plan.stages.as_slice();
    let solved = solve(alloc, tables, patterns, compiled, stages, reading, walk)?;
    match solved {
        Solved::TooLarge(place) => Err(QueryFault::SumTooLarge(place.path())),
        Solved::Found(found) => {
            let names = level_names(alloc, query)?;
            last_rows(names, found)
        }
    }
}

/// The rows that a query selects from the tables, in order. First it reads each pattern of the query once, in preorder, before it
/// looks at any row. Then it selects the rows of each level once, inner levels first. Of each level it reads the rows in reach.
pub fn select<P: Patterns, L: Ledger>(
    alloc: Global,
    tables: &Tables,
    query: &Query,
    patterns: &mut P,
    steps: &mut Steps<L>,
) -> Result<Picked, QueryFault>
    ensures same { (p t : List ℕ) → P.says patterns.new p t ≡ P.says patterns.old p t }

    // Ok is exactly what the query means. `SumTooLarge` names the first sum that overflows 128 bits, exactly if there is one.
    ensures answer { MatchPicked (world_of tables.now (P.says patterns.old)) query.now result }
    ensures stands { (history : Trace) → Stands tables.now history
        → MatchPicked (spec.world_of tables.now.ttls history (P.says patterns.old)) query.now result }

    // `BadPattern` raises the count of refusals, up to 2^64 - 1. Any other result leaves the count unchanged.
    ensures cause { Counts (P.refusals patterns.old) (P.refusals patterns.new) (IsBadPattern result) }
    // Each pattern of the query is read once, in preorder, up to the first that is refused, whose place is returned.
    ensures asked { AreAsked (level_patterns query.now) (P.asked patterns.old) (P.asked patterns.new) result }
    // No text is tried before all patterns were read, and none if a pattern was refused.
    ensures course { IsCourse (level_patterns query.now) (P.course patterns.old) (P.course patterns.new) result }
    // Whatever the answer, no more rows are read than the query may read.
    ensures bound { steps.new ≤ steps.old + level_bound (λ e. table_rows e tables.now) query.now }
{
    select_reading(alloc, tables, query, patterns, Reading::InReach, steps)
}

/// The same answer, and the rows of each level are read as `reading` says.
pub fn select_reading<P: Patterns, L: Ledger>(
    alloc: Global,
    tables: &Tables,
    query: &Query,
    patterns: &mut P,
    reading: Reading,
    steps: &mut Steps<L>,
) -> Result<Picked, QueryFault>
    ensures same { (p t : List ℕ) → P.says patterns.new p t ≡ P.says patterns.old p t }

    // Ok is exactly what the query means. `SumTooLarge` names the first sum that overflows 128 bits, exactly if there is one.
    ensures answer { MatchPicked (world_of tables.now (P.says patterns.old)) query.now result }
    ensures stands { (history : Trace) → Stands tables.now history
        → MatchPicked (spec.world_of tables.now.ttls history (P.says patterns.old)) query.now result }

    // `BadPattern` raises the count of refusals, up to 2^64 - 1. Any other result leaves the count unchanged.
    ensures cause { Counts (P.refusals patterns.old) (P.refusals patterns.new) (IsBadPattern result) }
    // Each pattern of the query is read once, in preorder, up to the first that is refused, whose place is returned.
    ensures asked { AreAsked (level_patterns query.now) (P.asked patterns.old) (P.asked patterns.new) result }
    // No text is tried before all patterns were read, and none if a pattern was refused.
    ensures course { IsCourse (level_patterns query.now) (P.course patterns.old) (P.course patterns.new) result }
    ensures bound { reading ≡ InReach → steps.new ≤ steps.old + level_bound (λ e. table_rows e tables.now) query.now }
{
    picked_of(alloc, tables, query.level(), patterns, reading, steps)
}

// The same in a ledger of its own.
fn select_in<P: Patterns, L: Ledger>(
    alloc: Global,
    blank: Blank,
    tables: &Tables,
    query: &Query,
    patterns: &mut P,
) -> Result<Picked, QueryFault>
    requires name { blank.name ≡ L.name }
    requires parts { blank.parts ≡ L.parts }
    requires some { 0 < blank.parts }
    ensures same { (p t : List ℕ) → P.says patterns.new p t ≡ P.says patterns.old p t }

    // Ok is exactly what the query means. `SumTooLarge` names the first sum that overflows 128 bits, exactly if there is one.
    ensures answer { MatchPicked (world_of tables.now (P.says patterns.old)) query.now result }
    ensures stands { (history : Trace) → Stands tables.now history
        → MatchPicked (spec.world_of tables.now.ttls history (P.says patterns.old)) query.now result }

    // `BadPattern` raises the count of refusals, up to 2^64 - 1. Any other result leaves the count unchanged.
    ensures cause { Counts (P.refusals patterns.old) (P.refusals patterns.new) (IsBadPattern result) }
    // Each pattern of the query is read once, in preorder, up to the first that is refused, whose place is returned.
    ensures asked { AreAsked (level_patterns query.now) (P.asked patterns.old) (P.asked patterns.new) result }
    // No text is tried before all patterns were read, and none if a pattern was refused.
    ensures course { IsCourse (level_patterns query.now) (P.course patterns.old) (P.course patterns.new) result }
{
    let mut steps = Steps::<L>::begin(blank);
    select(alloc, tables, query, patterns, &mut steps)
}

/// What [`select`] answers, for callers that count no steps.
pub fn select_uncounted<P: Patterns>(
    alloc: Global,
    tables: &Tables,
    query: &Query,
    patterns: &mut P,
) -> Result<Picked, QueryFault>
    ensures same { (p t : List ℕ) → P.says patterns.new p t ≡ P.says patterns.old p t }

    // Ok is exactly what the query means. `SumTooLarge` names the first sum that overflows 128 bits, exactly if there is one.
    ensures answer { MatchPicked (world_of tables.now (P.says patterns.old)) query.now result }
    ensures stands { (history : Trace) → Stands tables.now history
        → MatchPicked (spec.world_of tables.now.ttls history (P.says patterns.old)) query.now result }

    // `BadPattern` raises the count of refusals, up to 2^64 - 1. Any other result leaves the count unchanged.
    ensures cause { Counts (P.refusals patterns.old) (P.refusals patterns.new) (IsBadPattern result) }
    // Each pattern of the query is read once, in preorder, up to the first that is refused, whose place is returned.
    ensures asked { AreAsked (level_patterns query.now) (P.asked patterns.old) (P.asked patterns.new) result }
    // No text is tried before all patterns were read, and none if a pattern was refused.
    ensures course { IsCourse (level_patterns query.now) (P.course patterns.old) (P.course patterns.new) result }
{
    select_in::<P, Brand>(alloc, Blank::new(1), tables, query, patterns)
}

// Selects the rows of the outermost level.
fn picked_of<L: Ledger, P: Patterns>(
    alloc: Global,
    tables: &Tables,
    query: &Level,
    patterns: &mut P,
    reading: Reading,
    walk: &mut Steps<L>,
) -> Result<Picked, QueryFault>
    ensures same { (p t : List ℕ) → P.says patterns.new p t ≡ P.says patterns.old p t }
    ensures answer { MatchPicked (world_of tables.now (P.says patterns.old)) query.now result }
    ensures cause { Counts (P.refusals patterns.old) (P.refusals patterns.new) (IsBadPattern result) }
    ensures asked { AreAsked (level_patterns query.now) (P.asked patterns.old) (P.asked patterns.new) result }
    ensures course { IsCourse (level_patterns query.now) (P.course patterns.old) (P.course patterns.new) result }
    ensures bound { reading ≡ InReach → walk.new ≤ walk.old + level_bound (λ e. table_rows e tables.now) query.now }
{
    let plan = plan_of(alloc, query)?;
    match compile_all(alloc, patterns, plan.patterns.as_slice()) {
        Ok(compiled) => answered(
            alloc,
            tables,
            query,
            &plan,
            patterns,
            compiled.as_slice(),
            reading,
            walk,
        ),
        Err(fault) => Err(fault),
    }
}

// Takes the rows of the last level.
fn last_rows(names: Names, mut found: Vec<Known>) -> Result<Picked, QueryFault>
    ensures rows { IfOk result (λ picked. (earlier : List (List (List CellValue))) × (found.items ≡ earlier ++ picked.rows.rows ∷ [])) }
    ensures names { IfOk result (λ picked. picked.rows.names ≡ names) }
    ensures memory { IfErr result (λ fault. fault ≡ Memory) }
{
    match found.pop() {
        Some(known) => Ok(Picked {
            rows: OutRows {
                names,
                rows: known.rows,
            },
        }),
        None => Err(QueryFault::Memory),
    }
}
