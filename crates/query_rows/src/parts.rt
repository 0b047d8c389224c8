//! Sorts rows into parts by their marks.
ghost use Rattle.std.specs.Prelude.{◌≡◌, ◌++◌, ◌∷◌, ◌==◌, ◌<◌, [], ℕ, length, IfOk, OnOk, if◌then◌else◌};
ghost use Rattle.query_rows.specs.Marked.{part_at, rows_marked, HaveMarks, AreParted};
ghost use Rattle.query_plan.specs.table_spec.Rows as spec;

use crate::marks::Marked;
use row_views::View;
use std::alloc::{AllocError, Global};

/// The rows with one mark, in order.
#[derive(Drop)]
pub struct Part<'a> {
    pub rows: Vec<&'a View<'a>>,
}

// Makes room for the mark.
fn grow(alloc: Global, parts: &mut Vec<Part<'_>>, mark: usize) -> Result<(), AllocError>
    ensures room { OnOk result (mark < length parts.new.items) }
    ensures same { OnOk result ((q : ℕ) → part_at parts.new.items q ≡ part_at parts.old.items q) }
{
    'growing: while parts.len() <= mark {
        parts.push(Part {
            rows: Vec::new(alloc),
        })?;
    }
    Ok(())
}

fn put_at<'a>(parts: &mut Vec<Part<'a>>, mark: usize, row: &'a View<'a>) -> Result<(), AllocError>
    requires { mark < length parts.old.items }
    ensures { OnOk result ((q : ℕ) → part_at parts.new.items q ≡ part_at parts.old.items q ++ (if mark == q then row.now ∷ [] else [])) }
{
    parts[mark].rows.push(row)?;
    Ok(())
}

/// Appends a row to the part of its mark.
pub fn put<'a>(
    alloc: Global,
    parts: &mut Vec<Part<'a>>,
    mark: usize,
    row: &'a View<'a>,
) -> Result<(), AllocError>
    ensures { OnOk result ((q : ℕ) → part_at parts.new.items q ≡ part_at parts.old.items q ++ (if mark == q then row.now ∷ [] else [])) }
{
    grow(alloc, parts, mark)?;
    put_at(parts, mark, row)
}

/// All rows, sorted into parts by their marks.
pub fn parts_of<'a>(alloc: Global, rows: &[Marked<'a>]) -> Result<Vec<Part<'a>>, AllocError>
    ensures { IfOk result (λ parts. (b : spec.Cells → ℕ) → HaveMarks b rows.now → AreParted b parts.items (rows_marked rows.now)) }
{
    let mut parts = Vec::new(alloc);
    for row in rows {
        put(alloc, &mut parts, row.mark, row.row)?;
    }
    Ok(parts)
}
