//! Computes functions over the cells of a column.
ghost use Rattle.std.specs.Prelude.{◌≡◌, ◌∷◌, List, length, map, IfOk, pos, false};
ghost use Rattle.fleet_tables.specs.fleet_rows.Cell.{CellValue, cell_of};
ghost use Rattle.query_plan.specs.means_spec.Cells.{cell_in};
ghost use Rattle.query_plan.specs.means_spec.Groups.{count_cell, told, least, greatest, least_of, greatest_of, function_of, scaled_numbers, sum_of};
ghost use Rattle.query_plan.specs.means_spec.Sums.{is_too_large};
ghost use Rattle.row_views.specs.Seen.{seen_value};
ghost use Rattle.query_plan.specs.query_spec.declared.parts.Function.TheVariants as made;
ghost use Rattle.level_answers.specs.Best.{IsTold, cells_told, told_or_null, least_behind, greatest_behind};
ghost use Rattle.query_rows.specs.Referred.{rows_of};

use crate::sums::{Sum, sum_cell, sum_of};
use fleet_tables::fleet_rows::{Cell, Entity};
use itoa::Buffer;
use query_plan::query_spec::Function;
use query_rows::{is_null, seen_order};
use row_views::{Seen, View, copied};
use same_text::json_tree::{Json, Number, Text};
use std::alloc::{AllocError, Global};

// The value, if it isn't null.
fn told<'a>(seen: Seen<'a>) -> Option<Seen<'a>>
    ensures { IsTold result (seen_value seen.entry) }
{
    if is_null(&seen) { None } else { Some(seen) }
}

/// The cell of a count.
pub(crate) fn count_cell(alloc: Global, count: usize) -> Result<Cell, AllocError>
    ensures { IfOk result (λ cell. cell_of cell ≡ count_cell count) }
{
    let mut buffer = Buffer::new();
    let text = Text::from_str(alloc, buffer.format(count))?;
    Ok(Cell::Plain(Json::Num(Number::of(text))))
}

// The number of cells that aren't null.
fn count_told(entity: Option<Entity>, name: &str, rows: &[&View<'_>]) -> usize
    ensures { result ≡ length (told (map (cell_in entity name.now) (rows_of rows.now))) }
{
    let mut count = 0;
    for row in rows {
        if told(row.seen(entity, name)).is_some() {
            count += 1;
        }
    }
    count
}

fn lesser<'a>(best: Option<Seen<'a>>, seen: Seen<'a>) -> Seen<'a>
    ensures { (later : List CellValue) → least (seen_value result) later ≡ least_behind (cells_told best.entry) (seen_value seen.entry ∷ later) }
{
    match best {
        Some(least) => {
            if seen_order(&seen, &least).is_lt() {
                seen
            } else {
                least
            }
        }
        None => seen,
    }
}

fn greater<'a>(best: Option<Seen<'a>>, seen: Seen<'a>) -> Seen<'a>
    ensures { (later : List CellValue) → greatest (seen_value result) later ≡ greatest_behind (cells_told best.entry) (seen_value seen.entry ∷ later) }
{
    match best {
        Some(greatest) => {
            if seen_order(&seen, &greatest).is_gt() {
                seen
            } else {
                greatest
            }
        }
        None => seen,
    }
}

// The least cell of the column that isn't null.
fn least_of<'a>(entity: Option<Entity>, name: &str, rows: &[&'a View<'a>]) -> Option<Seen<'a>>
    ensures { told_or_null result ≡ least_of (told (map (cell_in entity name.now) (rows_of rows.now))) }
{
    let mut best = None;
    for row in rows {
        if let Some(seen) = told(row.seen(entity, name)) {
            best = Some(lesser(best, seen));
        }
    }
    best
}

// The greatest cell of the column that isn't null.
fn greatest_of<'a>(entity: Option<Entity>, name: &str, rows: &[&'a View<'a>]) -> Option<Seen<'a>>
    ensures { told_or_null result ≡ greatest_of (told (map (cell_in entity name.now) (rows_of rows.now))) }
{
    let mut best = None;
    for row in rows {
        if let Some(seen) = told(row.seen(entity, name)) {
            best = Some(greater(best, seen));
        }
    }
    best
}

// The sum of the column over these rows. The result is meaningless if the sum is too large.
fn column_sum(
    alloc: Global,
    entity: Option<Entity>,
    name: &str,
    rows: &[&View<'_>],
) -> Result<Cell, AllocError>
    ensures { IfOk result (λ cell. is_too_large (pos 0) (scaled_numbers (map (cell_in entity name.now) (rows_of rows.now))) ≡ false
        → cell_of cell ≡ sum_of (scaled_numbers (map (cell_in entity name.now) (rows_of rows.now)))) }
{
    match sum_of(entity, name, rows) {
        Sum::TooLarge => Ok(Cell::Plain(Json::Null)),
        Sum::Of(sum) => sum_cell(alloc, &sum),
    }
}

fn copied_or_null(alloc: Global, seen: Option<Seen<'_>>) -> Result<Cell, AllocError>
    ensures { IfOk result (λ cell. cell_of cell ≡ told_or_null seen.entry) }
{
    match seen {
        Some(seen) => copied(alloc, &seen),
        None => Ok(Cell::Plain(Json::Null)),
    }
}

/// The function over this column of these rows. The result is meaningless for a sum that is too large.
pub(crate) fn function_cell(
    alloc: Global,
    entity: Option<Entity>,
    function: Function,
    name: &str,
    rows: &[&View<'_>],
) -> Result<Cell, AllocError>
    ensures { IfOk result (λ cell. (function ≡ made.Sum → is_too_large (pos 0) (scaled_numbers (map (cell_in entity name.now) (rows_of rows.now))) ≡ false)
        → cell_of cell ≡ function_of function (map (cell_in entity name.now) (rows_of rows.now))) }
{
    match function {
        Function::Count => count_cell(alloc, count_told(entity, name, rows)),
        Function::Sum => column_sum(alloc, entity, name, rows),
        Function::Min => copied_or_null(alloc, least_of(entity, name, rows)),
        Function::Max => copied_or_null(alloc, greatest_of(entity, name, rows)),
    }
}
