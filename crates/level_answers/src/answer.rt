//! Makes the answer of a level from the rows that it selects.
ghost use Rattle.std.specs.Prelude.{◌≡◌, None, IfOk, map, pos, true, false};
ghost use Rattle.std.specs.List.{list_any};
ghost use Rattle.std.specs.Option.{option_copied};
ghost use Rattle.fleet_tables.specs.fleet_rows.Cell.{cell_of};
ghost use Rattle.query_plan.specs.means_spec.Cells.{cell_in};
ghost use Rattle.query_plan.specs.means_spec.Groups.{group_cell, scaled_numbers};
ghost use Rattle.query_plan.specs.means_spec.Paging.{paged};
ghost use Rattle.query_plan.specs.means_spec.Shown.{distinct};
ghost use Rattle.query_plan.specs.means_spec.Sums.{is_too_large, sum_too_large, large_sum, large_sums};
ghost use Rattle.query_plan.specs.query_spec.Check.{makes_groups, shown_list};
ghost use Rattle.level_answers.specs.Levels.{IsAnswered, IsGrouped};
ghost use Rattle.level_answers.specs.Fitting.{SumFits, SumsFit, AllSumsFit};
ghost use Rattle.level_answers.specs.Grouped.{group_seen};
ghost use Rattle.query_rows.specs.Referred.{selected_of};

use crate::functions::{count_cell, function_cell};
use crate::groups::{RowGroup, groups};
use crate::shown::{distinct, output_names, shown_rows};
use crate::sums::{Sum, sum_of};
use fleet_tables::fleet_rows::{Cell, Cells, Entity, Names};
use paging_text::{Lines, OutRows, page};
use pattern_port::Keys;
use query_plan::ast_tree::shown_list;
use query_plan::query_spec::{Function, Name, Paging, Place, Selected, Selection};
use query_rows::column_names;
use row_views::{View, copied};
use std::alloc::{AllocError, Global};

/// The rows of a level, or the place of its first sum that is too large.
#[derive(Drop)]
pub enum Answered<'q> {
    Rows(Lines),
    TooLarge(&'q Place),
}

// ---- sums that are too large

fn sum_too_large(entity: Option<Entity>, name: &str, group: &RowGroup) -> bool
    ensures { result ≡ is_too_large (pos 0) (scaled_numbers (map (cell_in entity name.now) (group_seen group.now).rows)) }
{
    match sum_of(entity, name, group.rows.as_slice()) {
        Sum::TooLarge => true,
        Sum::Of(_) => false,
    }
}

fn some_too_large(entity: Option<Entity>, name: &Name, groups: &[RowGroup]) -> bool
    ensures { result ≡ list_any (sum_too_large entity name.now) (map group_seen groups.now) }
{
    for group in groups {
        if sum_too_large(entity, name.text.as_str(), group) {
            return true;
        }
    }
    false
}

fn large_sum<'q>(
    entity: Option<Entity>,
    groups: &[RowGroup],
    selected: &'q Selected,
) -> Option<&'q Place>
    ensures { option_copied result ≡ large_sum entity (map group_seen groups.now) selected.now }
{
    match selected {
        Selected::Function(Function::Sum, name) => {
            some_too_large(entity, name, groups).then_some(&name.place)
        }
        _ => None,
    }
}

// The first of the outputs whose sum is too large.
fn large_sums<'q>(
    entity: Option<Entity>,
    groups: &[RowGroup],
    shown: &'q [Selected],
) -> Option<&'q Place>
    ensures { option_copied result ≡ large_sums entity (map group_seen groups.now) shown.now }
{
    for selected in shown {
        if let Some(place) = large_sum(entity, groups, selected) {
            return Some(place);
        }
    }
    None
}

// ---- the rows of groups, if no sum is too large

fn group_cell(
    alloc: Global,
    entity: Option<Entity>,
    group: &RowGroup,
    selected: &Selected,
) -> Result<Cell, AllocError>
    ensures { IfOk result (λ cell. SumFits entity (group_seen group.now) selected.now → cell_of cell ≡ group_cell entity (group_seen group.now) selected.now) }
{
    match selected {
        Selected::Column(name) => { copied(alloc, &group.first.seen(entity, name.text.as_str())) }
        Selected::Rows => count_cell(alloc, group.rows.len()),
        Selected::Function(function, name) => {
            let rows = group.rows.as_slice();
            function_cell(alloc, entity, *function, name.text.as_str(), rows)
        }
    }
}

fn group_row(
    alloc: Global,
    entity: Option<Entity>,
    group: &RowGroup,
    outputs: &[&Selected],
) -> Result<Cells, AllocError>
    ensures { IfOk result (λ cells. SumsFit entity (group_seen group.now) (selected_of outputs.now)
        → cells ≡ map (group_cell entity (group_seen group.now)) (selected_of outputs.now)) }
{
    let mut cells = Cells::new(alloc);
    for output in outputs {
        cells.push(group_cell(alloc, entity, group, output)?)?;
    }
    Ok(cells)
}

fn group_rows(
    alloc: Global,
    entity: Option<Entity>,
    groups: &[RowGroup],
    outputs: &[&Selected],
) -> Result<Lines, AllocError>
    ensures { IfOk result (λ lines. AllSumsFit entity (selected_of outputs.now) (map group_seen groups.now)
        → lines ≡ map (λ x. map (group_cell entity x) (selected_of outputs.now)) (map group_seen groups.now)) }
{
    let mut lines = Lines::new(alloc);
    for group in groups {
        lines.push(group_row(alloc, entity, group, outputs)?)?;
    }
    Ok(lines)
}

// ---- whole answers

/// The rows after a paging.
pub(crate) fn paged(names: Names, rows: Lines, paging: &Paging) -> Result<Lines, AllocError>
    ensures { IfOk result (λ left. left ≡ paged names paging.now rows) }
{
    let page = page(OutRows { names, rows }, paging)?;
    Ok(page.rows.rows)
}

// The rows of the groups, or the first sum that is too large.
fn grouped<'q>(
    alloc: Global,
    keys: Keys,
    entity: Option<Entity>,
    shown: &'q [Selected],
    group: &[Name],
    rows: &[View<'_>],
) -> Result<Answered<'q>, AllocError>
    ensures { IfOk result (IsGrouped entity shown.now group.now rows.now) }
{
    let nothing = View::none();
    let found = groups(alloc, keys, entity, group, rows, &nothing)?;
    let all = found.as_slice();
    match large_sums(entity, all, shown) {
        Some(place) => Ok(Answered::TooLarge(place)),
        None => Ok(Answered::Rows(fitting_rows(alloc, entity, shown, all)?)),
    }
}

// The rows of the groups, if no sum is too large.
fn fitting_rows(
    alloc: Global,
    entity: Option<Entity>,
    shown: &[Selected],
    groups: &[RowGroup],
) -> Result<Lines, AllocError>
    requires { large_sums entity (map group_seen groups.now) shown.now ≡ None }
    ensures { IfOk result (λ lines. lines ≡ map (λ x. map (group_cell entity x) (distinct shown.now)) (map group_seen groups.now)) }
{
    let kept = distinct(alloc, shown)?;
    let outputs = kept.as_slice();
    group_rows(alloc, entity, groups, outputs)
}

/// The answer from these selected rows of the entity, if they are grouped.
pub fn group_answer<'q>(
    alloc: Global,
    keys: Keys,
    entity: Option<Entity>,
    shown: &'q Option<Selection>,
    group: &[Name],
    paging: &Paging,
    rows: &[View<'_>],
) -> Result<Answered<'q>, AllocError>
    requires { makes_groups (shown_list shown.now) group.now ≡ true }
    ensures { IfOk result (IsAnswered entity shown.now group.now paging.now rows.now) }
{
    match grouped(alloc, keys, entity, shown_list(shown), group, rows)? {
        Answered::TooLarge(place) => Ok(Answered::TooLarge(place)),
        Answered::Rows(lines) => {
            let names = output_names(alloc, entity, shown)?;
            Ok(Answered::Rows(paged(names, lines, paging)?))
        }
    }
}

/// The answer from these selected rows of the entity, if they aren't grouped.
pub fn page_answer<'q>(
    alloc: Global,
    entity: Option<Entity>,
    shown: &'q Option<Selection>,
    group: &[Name],
    paging: &Paging,
    rows: Lines,
) -> Result<Answered<'q>, AllocError>
    requires { makes_groups (shown_list shown.now) group.now ≡ false }
    ensures { IfOk result (IsAnswered entity shown.now group.now paging.now rows) }
{
    let names = column_names(alloc, entity)?;
    let left = paged(names, rows, paging)?;
    Ok(Answered::Rows(shown_rows(alloc, entity, shown, left)?))
}
