//! Copies trees. A copy shares no memory with its original.
ghost use Rattle.std.specs.Prelude.{◌≡◌, IfOk};
ghost use Rattle.ast_tree.specs.Tree.{filter_of, filters};

use crate::tree::{Clause, Filter, Filters, Level, Operand};
use query_spec::Selection;
use std::alloc::{AllocError, Global};

fn copy_shown(alloc: Global, shown: &Option<Selection>) -> Result<Option<Selection>, AllocError>
    ensures { IfOk result (λ copied. copied ≡ shown.now) }
{
    match shown {
        None => Ok(None),
        Some(selection) => Ok(Some(selection.copy(alloc)?)),
    }
}

#[cycle(copies)]
fn copy_filter(alloc: Global, filter: &Filter) -> Result<Filter, AllocError>
    ensures { IfOk result (λ copied. filter_of copied ≡ filter_of filter.now) }
{
    match filter {
        Filter::Compare(op, field, literal) => Ok(Filter::Compare(
            *op,
            field.copy(alloc)?,
            literal.copy(alloc)?,
        )),
        Filter::Matches(field, pattern) => {
            Ok(Filter::Matches(field.copy(alloc)?, pattern.copy(alloc)?))
        }
        Filter::IsNull(field, value) => Ok(Filter::IsNull(field.copy(alloc)?, *value)),
        Filter::InList(fields, place, literals) => Ok(Filter::InList(
            fields.copy(alloc)?,
            place.copy(alloc)?,
            literals.copy(alloc)?,
        )),
        Filter::InLevel(fields, place, level) => {
            let level = copy_level(alloc, level)?;
            Ok(Filter::InLevel(
                fields.copy(alloc)?,
                place.copy(alloc)?,
                Box::new(alloc, level)?,
            ))
        }
        Filter::Subquery(name, clause) => {
            let clause = copy_clause(alloc, clause)?;
            Ok(Filter::Subquery(name.copy(alloc)?, clause))
        }
        Filter::Not(operand) => {
            let filter = copy_filter(alloc, operand.filter())?;
            Ok(Filter::Not(Operand::new(alloc, filter)?))
        }
        Filter::All(filters) => Ok(Filter::All(copy_filters(alloc, filters.as_slice())?)),
        Filter::Any(filters) => Ok(Filter::Any(copy_filters(alloc, filters.as_slice())?)),
    }
}

#[cycle(copies)]
fn copy_filters(alloc: Global, list: &[Filter]) -> Result<Filters, AllocError>
    ensures { IfOk result (λ copied. copied ≡ filters list.now) }
{
    let mut copied = Filters::new(alloc);
    for filter in list {
        copied.push(copy_filter(alloc, filter)?)?;
    }
    Ok(copied)
}

#[cycle(copies)]
fn copy_clause(alloc: Global, clause: &Clause) -> Result<Clause, AllocError>
    ensures { IfOk result (λ copied. copied ≡ clause.now) }
{
    match clause.filter() {
        None => Ok(Clause::none()),
        Some(filter) => {
            let filter = copy_filter(alloc, filter)?;
            Clause::of(alloc, filter)
        }
    }
}

#[cycle(copies)]
fn copy_level(alloc: Global, level: &Level) -> Result<Level, AllocError>
    ensures { IfOk result (λ copied. copied ≡ level.now) }
{
    let (entity, shown, clause, group, paging) = level.parts();
    let clause = copy_clause(alloc, clause)?;
    Ok(Level::new(
        entity.copy(alloc)?,
        copy_shown(alloc, shown)?,
        clause,
        group.copy(alloc)?,
        paging.copy(alloc)?,
    ))
}

impl Level {
    /// A copy of the level.
    pub fn copy(&self, alloc: Global) -> Result<Level, AllocError>
        ensures { IfOk result (λ level. level ≡ self.now) }
    {
        copy_level(alloc, self)
    }
}
