//! Makes the plan of a query in one walk over its tree.
ghost use Rattle.std.specs.Prelude.{◌≡◌, ℕ, List, [], ◌++◌, ◌+◌, ◌||◌, length, IfOk, OnOk};
ghost use Rattle.std.specs.List.{list_any};
ghost use Rattle.ast_tree.specs.Tree.{filter_of, filters};
ghost use Rattle.means_spec.specs.Means.{is_state, names_state, some_names_state, clause_names_state};
ghost use Rattle.ast_tree.specs.query_spec.Query as spec;
ghost use Rattle.ast_tree.specs.query_spec.Query.{filters_of};
ghost use Rattle.query_plan.specs.Plan.{both, either, level_levels, clause_levels, filter_patterns, filters_patterns, clause_patterns};
ghost use Rattle.query_plan.specs.Plan.{level_patterns, filter_steps, each_steps, clause_steps, filter_stages, filters_stages, clause_stages};
ghost use Rattle.query_plan.specs.Plan.{level_stages};
ghost use Rattle.query_plan.specs.Made.{Adds, IsPlanOf};

use crate::step::{Plan, Shape, Stage, Step, Steps};
use ast_tree::query_spec::{Field, Name};
use ast_tree::{Clause, Filter, Level, entity_of};
use std::alloc::{AllocError, Global};

/// The plan of a query.
pub fn plan_of(alloc: Global, query: &Level) -> Result<Plan<'_>, AllocError>
    ensures { IfOk result (IsPlanOf query.now) }
{
    let mut plan = Plan {
        patterns: Vec::new(alloc),
        stages: Vec::new(alloc),
    };
    plan_level(alloc, query, &mut plan)?;
    Ok(plan)
}

fn is_state(field: &Field) -> bool
    ensures { result ≡ is_state field.now }
{
    match field {
        Field::NodeState(_) => true,
        _ => false,
    }
}

fn some_state(fields: &[Field]) -> bool
    ensures { result ≡ list_any is_state fields.now }
{
    for field in fields {
        if is_state(field) {
            return true;
        }
    }
    false
}

fn joined(state: bool, own: bool) -> bool
    ensures { result ≡ state || own }
{
    state || own
}

// Appends the steps of a filter to `steps`, and its patterns and inner levels to the plan. Returns whether the filter tests the
// state of nodes.
#[cycle(plan)]
fn plan_filter<'q>(
    alloc: Global,
    filter: &'q Filter,
    plan: &mut Plan<'q>,
    steps: &mut Steps<'q>,
) -> Result<bool, AllocError>
    ensures state { IfOk result (λ state. state ≡ names_state (filter_of filter.now)) }
    ensures steps { OnOk result (steps.new ≡ steps.old ++ filter_steps (length plan.old.patterns.items) (length plan.old.stages.items) (filter_of filter.now)) }
    ensures plan { OnOk result (Adds plan.old plan.new (filter_patterns (filter_of filter.now))
        (filter_stages (length plan.old.patterns.items) (length plan.old.stages.items) (filter_of filter.now))) }
{
    match filter {
        Filter::Compare(op, field, literal) => {
            steps.push(Step::Compares(*op, field, &literal.value))?;
            Ok(is_state(field))
        }
        Filter::Matches(field, pattern) => {
            let at = plan.patterns.len();
            plan.patterns.push(pattern)?;
            steps.push(Step::Fits(field, at))?;
            Ok(is_state(field))
        }
        Filter::IsNull(field, value) => {
            steps.push(Step::TestsNull(field, *value))?;
            Ok(is_state(field))
        }
        Filter::InList(fields, _, literals) => {
            steps.push(Step::Lists(fields.as_slice(), literals.as_slice()))?;
            Ok(some_state(fields.as_slice()))
        }
        Filter::InLevel(fields, _, level) => {
            let at = plan_level(alloc, level, plan)?;
            steps.push(Step::Selects(fields.as_slice(), at))?;
            Ok(some_state(fields.as_slice()))
        }
        Filter::Subquery(entity, clause) => {
            let at = plan_subquery(alloc, entity, clause, plan)?;
            steps.push(Step::SharesNode(entity_of(entity.text.as_str()), at))?;
            Ok(false)
        }
        Filter::Not(operand) => {
            let state = plan_filter(alloc, operand.filter(), plan, steps)?;
            steps.push(Step::Invert)?;
            Ok(state)
        }
        Filter::All(list) => {
            steps.push(Step::Constant(true))?;
            plan_all(alloc, list.as_slice(), plan, steps)
        }
        Filter::Any(list) => {
            steps.push(Step::Constant(false))?;
            plan_any(alloc, list.as_slice(), plan, steps)
        }
    }
}

#[cycle(plan)]
fn plan_all<'q>(
    alloc: Global,
    list: &'q [Filter],
    plan: &mut Plan<'q>,
    steps: &mut Steps<'q>,
) -> Result<bool, AllocError>
    ensures state { IfOk result (λ state. state ≡ some_names_state (filters_of (filters list.now))) }
    ensures steps { OnOk result (steps.new ≡ steps.old ++ each_steps both (length plan.old.patterns.items) (length plan.old.stages.items)
        (filters_of (filters list.now))) }
    ensures plan { OnOk result (Adds plan.old plan.new (filters_patterns (filters_of (filters list.now)))
        (filters_stages (length plan.old.patterns.items) (length plan.old.stages.items) (filters_of (filters list.now)))) }
{
    let mut state = false;
    for filter in list {
        let own = plan_filter(alloc, filter, plan, steps)?;
        steps.push(Step::Both)?;
        state = joined(state, own);
    }
    Ok(state)
}

#[cycle(plan)]
fn plan_any<'q>(
    alloc: Global,
    list: &'q [Filter],
    plan: &mut Plan<'q>,
    steps: &mut Steps<'q>,
) -> Result<bool, AllocError>
    ensures state { IfOk result (λ state. state ≡ some_names_state (filters_of (filters list.now))) }
    ensures steps { OnOk result (steps.new ≡ steps.old ++ each_steps either (length plan.old.patterns.items) (length plan.old.stages.items)
        (filters_of (filters list.now))) }
    ensures plan { OnOk result (Adds plan.old plan.new (filters_patterns (filters_of (filters list.now)))
        (filters_stages (length plan.old.patterns.items) (length plan.old.stages.items) (filters_of (filters list.now)))) }
{
    let mut state = false;
    for filter in list {
        let own = plan_filter(alloc, filter, plan, steps)?;
        steps.push(Step::Either)?;
        state = joined(state, own);
    }
    Ok(state)
}

// Appends the steps of a clause to `steps`, likewise.
#[cycle(plan)]
fn plan_clause<'q>(
    alloc: Global,
    clause: &'q Clause,
    plan: &mut Plan<'q>,
    steps: &mut Steps<'q>,
) -> Result<bool, AllocError>
    ensures state { IfOk result (λ state. state ≡ clause_names_state clause.now) }
    ensures steps { OnOk result (steps.new ≡ steps.old ++ clause_steps (length plan.old.patterns.items) (length plan.old.stages.items) clause.now) }
    ensures plan { OnOk result (Adds plan.old plan.new (clause_patterns clause.now)
        (clause_stages (length plan.old.patterns.items) (length plan.old.stages.items) clause.now)) }
{
    match clause.filter() {
        None => {
            steps.push(Step::Constant(true))?;
            Ok(false)
        }
        Some(filter) => plan_filter(alloc, filter, plan, steps),
    }
}

// Appends the stage of a level. Returns its number.
#[cycle(plan)]
fn plan_level<'q>(alloc: Global, level: &'q Level, plan: &mut Plan<'q>) -> Result<usize, AllocError>
    ensures number { IfOk result (λ at. at ≡ length plan.old.stages.items + level_levels level.now) }
    ensures plan { OnOk result (Adds plan.old plan.new (level_patterns level.now)
        (level_stages (length plan.old.patterns.items) (length plan.old.stages.items) level.now)) }
{
    let (entity, shown, clause, group, paging) = level.parts();
    let mut steps = Steps::new(alloc);
    let state = plan_clause(alloc, clause, plan, &mut steps)?;
    let at = plan.stages.len();
    plan.stages.push(Stage {
        entity: entity_of(entity.text.as_str()),
        state,
        steps,
        shape: Shape::Answers(shown, group.as_slice(), paging),
    })?;
    Ok(at)
}

#[cycle(plan)]
fn plan_subquery<'q>(
    alloc: Global,
    entity: &Name,
    clause: &'q Clause,
    plan: &mut Plan<'q>,
) -> Result<usize, AllocError>
    ensures number { IfOk result (λ at. at ≡ length plan.old.stages.items + clause_levels clause.now) }
    ensures plan { OnOk result (Adds plan.old plan.new (clause_patterns clause.now)
        (filter_stages (length plan.old.patterns.items) (length plan.old.stages.items) (spec.subquery entity.now clause.now))) }
{
    let mut steps = Steps::new(alloc);
    let state = plan_clause(alloc, clause, plan, &mut steps)?;
    let at = plan.stages.len();
    plan.stages.push(Stage {
        entity: entity_of(entity.text.as_str()),
        state,
        steps,
        shape: Shape::Whole,
    })?;
    Ok(at)
}
