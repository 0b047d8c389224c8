//! Groups rows.
//!
//! A row is compared only with the first rows of groups that have its mark, and a group is collected only from the rows with its
//! mark. So no row is compared with every group. Marks are found by hashes, under keys that the reader of patterns hands out.
ghost use Rattle.std.specs.Prelude.{◌≡◌, [], ◌∷◌, IfOk, OnOk, map, filter};
ghost use Rattle.std.specs.List.{list_any};
ghost use Rattle.query_plan.specs.means_spec.Groups.{key_of, cells_cmp, in_one_group, grouped, groups};
ghost use Rattle.query_plan.specs.table_spec.Sorted.{sorted_by};
ghost use Rattle.level_answers.specs.Begun.{Begins, AreFirst, AreGroupsOf, by_key};
ghost use Rattle.level_answers.specs.Grouped.{group_seen};
ghost use Rattle.query_rows.specs.Marked.{part_at, row_marked};
ghost use Rattle.query_rows.specs.Referred.{row_of, rows_of};

use fleet_tables::fleet_rows::Entity;
use pattern_port::Keys;
use query_plan::query_spec::Name;
use query_rows::{Marked, Part, in_one_group, parts_of, put, seen_order, with_marks};
use row_views::View;
use std::alloc::{AllocError, Global};
use std::cmp::Ordering;

/// A group: its first row, and all of its rows.
#[derive(Drop)]
pub(crate) struct RowGroup<'a> {
    pub(crate) first: &'a View<'a>,
    pub(crate) rows: Vec<&'a View<'a>>,
}

// Whether the row is in the group of one of these rows.
fn in_some_of(entity: Option<Entity>, columns: &[Name], row: &View<'_>, begun: &[&View<'_>]) -> bool
    ensures { result ≡ list_any (in_one_group (key_of entity columns.now) row.now) (rows_of begun.now) }
{
    for first in begun {
        if in_one_group(entity, columns, row, first) {
            return true;
        }
    }
    false
}

// Whether the row is in a group that began, among those with its mark.
fn in_some_group(
    entity: Option<Entity>,
    columns: &[Name],
    row: &View<'_>,
    begun: &[Part<'_>],
    mark: usize,
) -> bool
    ensures { result ≡ list_any (in_one_group (key_of entity columns.now) row.now) (part_at begun.now mark) }
{
    match begun.get(mark) {
        Some(part) => in_some_of(entity, columns, row, part.rows.as_slice()),
        None => false,
    }
}

// Appends a row that begins a group to the first rows, and to the part of its mark.
fn begin<'a>(
    alloc: Global,
    entity: Option<Entity>,
    columns: &[Name],
    row: &Marked<'a>,
    begun: &mut Vec<Marked<'a>>,
    parts: &mut Vec<Part<'a>>,
) -> Result<(), AllocError>
    ensures { OnOk result (Begins (key_of entity columns.now) row.now begun.old.items parts.old.items begun.new.items parts.new.items) }
{
    if in_some_group(entity, columns, row.row, parts.as_slice(), row.mark) {
        return Ok(());
    }
    put(alloc, parts, row.mark, row.row)?;
    begun.push(Marked {
        row: row.row,
        mark: row.mark,
    })?;
    Ok(())
}

// The rows that begin a group.
fn first_rows<'a>(
    alloc: Global,
    entity: Option<Entity>,
    columns: &[Name],
    rows: &[Marked<'a>],
) -> Result<Vec<Marked<'a>>, AllocError>
    ensures { IfOk result (λ firsts. AreFirst (key_of entity columns.now) rows.now firsts.items) }
{
    let mut begun = Vec::new(alloc);
    let mut parts = Vec::new(alloc);
    for row in rows {
        begin(alloc, entity, columns, row, &mut begun, &mut parts)?;
    }
    Ok(begun)
}

fn key_cmp(entity: Option<Entity>, columns: &[Name], a: &View<'_>, b: &View<'_>) -> Ordering
    ensures { result ≡ cells_cmp (key_of entity columns.now a.now) (key_of entity columns.now b.now) }
{
    for column in columns {
        let name = column.text.as_str();
        match seen_order(&a.seen(entity, name), &b.seen(entity, name)) {
            Ordering::Equal => {}
            unequal => return unequal,
        }
    }
    Ordering::Equal
}

// Sorts groups by the columns that their rows are grouped by.
fn sort(
    entity: Option<Entity>,
    columns: &[Name],
    groups: &mut Vec<RowGroup<'_>>,
) -> Result<(), AllocError>
    ensures { OnOk result (map group_seen groups.new.items ≡ sorted_by (by_key (key_of entity columns.now)) (map group_seen groups.old.items)) }
{
    groups.sort_by(|a, b| key_cmp(entity, columns, a.first, b.first))?;
    Ok(())
}

// The rows that are in one group with `first`.
fn rows_like<'a>(
    alloc: Global,
    entity: Option<Entity>,
    columns: &[Name],
    rows: &[&'a View<'a>],
    first: &View<'_>,
) -> Result<Vec<&'a View<'a>>, AllocError>
    ensures { IfOk result (λ found. rows_of found.items ≡ filter (in_one_group (key_of entity columns.now) first.now) (rows_of rows.now)) }
{
    let mut found = Vec::with_capacity(alloc, rows.len())?;
    for row in rows {
        if in_one_group(entity, columns, first, row) {
            found.push(*row)?;
        }
    }
    Ok(found)
}

// The group of its first row, collected from the rows with the same mark.
fn group_of<'a>(
    alloc: Global,
    entity: Option<Entity>,
    columns: &[Name],
    parts: &[Part<'a>],
    first: &Marked<'a>,
) -> Result<RowGroup<'a>, AllocError>
    ensures first { IfOk result (λ group. row_of group.first ≡ row_marked first.now) }
    ensures rows { IfOk result (λ group. rows_of group.rows.items
        ≡ filter (in_one_group (key_of entity columns.now) (row_marked first.now)) (part_at parts.now first.now.mark)) }
{
    let rows = match parts.get(first.mark) {
        Some(part) => rows_like(alloc, entity, columns, part.rows.as_slice(), first.row)?,
        None => Vec::new(alloc),
    };
    Ok(RowGroup {
        first: first.row,
        rows,
    })
}

// The groups of these first rows. The parts contain all rows.
fn groups_of<'a>(
    alloc: Global,
    entity: Option<Entity>,
    columns: &[Name],
    parts: &[Part<'a>],
    firsts: &[Marked<'a>],
) -> Result<Vec<RowGroup<'a>>, AllocError>
    ensures { IfOk result (λ found. AreGroupsOf (key_of entity columns.now) parts.now firsts.now (map group_seen found.items)) }
{
    let mut found = Vec::new(alloc);
    for first in firsts {
        found.push(group_of(alloc, entity, columns, parts, first)?)?;
    }
    Ok(found)
}

fn grouped<'a>(
    alloc: Global,
    keys: Keys,
    entity: Option<Entity>,
    columns: &[Name],
    rows: &'a [View<'a>],
) -> Result<Vec<RowGroup<'a>>, AllocError>
    ensures { IfOk result (λ found. map group_seen found.items ≡ grouped (key_of entity columns.now) rows.now) }
{
    let all = with_marks(alloc, keys, entity, columns, rows)?;
    let list = all.as_slice();
    let firsts = first_rows(alloc, entity, columns, list)?;
    let parts = parts_of(alloc, list)?;
    let begun = firsts.as_slice();
    let by_mark = parts.as_slice();
    let mut found = groups_of(alloc, entity, columns, by_mark, begun)?;
    sort(entity, columns, &mut found)?;
    Ok(found)
}

fn all_of<'a>(alloc: Global, rows: &'a [View<'a>]) -> Result<Vec<&'a View<'a>>, AllocError>
    ensures { IfOk result (λ found. rows_of found.items ≡ rows.now) }
{
    let mut found = Vec::with_capacity(alloc, rows.len())?;
    for row in rows {
        found.push(row)?;
    }
    Ok(found)
}

fn one_group<'a>(
    alloc: Global,
    rows: &'a [View<'a>],
    nothing: &'a View<'a>,
) -> Result<Vec<RowGroup<'a>>, AllocError>
    requires { nothing.now ≡ [] }
    ensures { IfOk result (λ found. map group_seen found.items ≡ record { first = []; rows = rows.now } ∷ []) }
{
    let mut found = Vec::new(alloc);
    found.push(RowGroup {
        first: nothing,
        rows: all_of(alloc, rows)?,
    })?;
    Ok(found)
}

/// The groups of the rows, sorted by their cells. Without columns to group by, one group has all rows, and `nothing` as its first.
pub(crate) fn groups<'a>(
    alloc: Global,
    keys: Keys,
    entity: Option<Entity>,
    columns: &[Name],
    rows: &'a [View<'a>],
    nothing: &'a View<'a>,
) -> Result<Vec<RowGroup<'a>>, AllocError>
    requires { nothing.now ≡ [] }
    ensures { IfOk result (λ found. map group_seen found.items ≡ groups entity columns.now rows.now) }
{
    match columns {
        [] => one_group(alloc, rows, nothing),
        _ => grouped(alloc, keys, entity, columns, rows),
    }
}
