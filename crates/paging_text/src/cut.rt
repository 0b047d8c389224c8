//! Applies a paging to rows.
ghost use Rattle.std.specs.Prelude.{◌≡◌, length, IfOk};
ghost use Rattle.means_spec.specs.OutRows.{page};
ghost use Rattle.paging_text.specs.Shown.{rows_of};

use crate::rows::{OutRows, Page};
use means_spec::query_spec::Paging;
use std::alloc::AllocError;

/// Sorts the rows by the paging's columns, then drops the rows before its offset and those after its limit. Equal rows keep their
/// order. The page also tells the number of all rows.
pub fn page(rows: OutRows, paging: &Paging) -> Result<Page, AllocError>
    ensures rows { IfOk result (λ left. rows_of left.rows ≡ page paging.now (rows_of rows)) }
    ensures total { IfOk result (λ left. left.total ≡ length rows.rows) }
{
    let OutRows { names, mut rows } = rows;
    let total = rows.as_slice().len() as u64;
    rows.sort(names.as_slice(), paging.order.as_slice())?;
    rows.skip(paging.offset);
    rows.keep(paging.limit);
    Ok(Page {
        rows: OutRows { names, rows },
        total,
    })
}
