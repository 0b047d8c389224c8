//! Prints rows as JSON. The names of the columns are quoted once, and their texts are copied into each row.
ghost use Rattle.std.specs.Prelude.{◌≡◌, ◌↔◌, ◌++◌, ◌∷◌, [], ℕ, List, false, IfOk, OnOk, IsTrue};
ghost use Rattle.std.specs.List.{AllByRecursion};
ghost use Rattle.means_spec.specs.text_spec.Compact.{comma_if, quoted};
ghost use Rattle.means_spec.specs.stamp_time.Range.{IsPrintable};
ghost use Rattle.means_spec.specs.fleet_rows.Cell.{cell_of, cells_of};
ghost use Rattle.means_spec.specs.OutRows.{lines_text};
ghost use Rattle.paging_text.specs.Shown.{rows_of, IsPrintableRow, short_text, can_be_printed, moment_text, cell_text};
ghost use Rattle.paging_text.specs.Shown.{head_text, heads_text, headed_text, row_text, written_text};

use crate::rows::OutRows;
use means_spec::fleet_rows::Cell;
use means_spec::json_tree::{Bytes, Text, append_compact, append_quoted};
use means_spec::stamp_time::{Moment, write_stamp};
use std::alloc::{AllocError, Global};

/// The compact text (RFC 8259) of a list of objects, one for each row, with the columns in their order. A moment is printed as
/// `YYYY-MM-DDTHH:MM:SS.fffZ` if it has a stamp or is up to 3,650 days after one that has. Any other moment is printed as null;
/// the table of a history has none.
pub fn write_rows(alloc: Global, rows: &OutRows) -> Result<Bytes, AllocError>
    ensures text { IfOk result (λ bytes. bytes ≡ written_text (rows_of rows.now)) }
    ensures lines { AllByRecursion IsPrintableRow rows.now.rows → IfOk result (λ bytes. bytes ≡ lines_text (rows_of rows.now)) }
{
    let heads = heads_of(alloc, rows.names.as_slice())?;
    let mut out = Vec::new(alloc);
    out.push(b'[')?;
    let mut later = false;
    for row in rows.rows.as_slice() {
        put_comma(&mut out, later)?;
        put_row(&mut out, heads.as_slice(), row.as_slice())?;
        later = true;
    }
    out.push(b']')?;
    Ok(Bytes::from_vec(out))
}

fn put_comma(out: &mut Vec<u8>, later: bool) -> Result<(), AllocError>
    ensures { OnOk result (out.new.items ≡ out.old.items ++ comma_if later) }
{
    if later {
        out.push(b',')?;
    }
    Ok(())
}

// What stands before the cell of each column: a comma in all but the first, the quoted name, and a colon.
fn heads_of(alloc: Global, names: &[Text]) -> Result<Vec<Bytes>, AllocError>
    ensures { IfOk result (λ heads. heads.items ≡ heads_text false names.now) }
{
    let mut heads = Vec::new(alloc);
    let mut later = false;
    for name in names {
        heads.push(head_of(alloc, later, name.as_str())?)?;
        later = true;
    }
    Ok(heads)
}

fn head_of(alloc: Global, later: bool, name: &str) -> Result<Bytes, AllocError>
    ensures { IfOk result (λ head. head ≡ head_text later name.now) }
{
    let mut out = Vec::new(alloc);
    put_comma(&mut out, later)?;
    append_quoted(&mut out, name)?;
    out.push(b':')?;
    Ok(Bytes::from_vec(out))
}

fn put_row(out: &mut Vec<u8>, heads: &[Bytes], cells: &[Cell]) -> Result<(), AllocError>
    ensures { (names : List (List ℕ)) → heads.now ≡ heads_text false names
        → OnOk result (out.new.items ≡ out.old.items ++ row_text names (cells_of cells.now)) }
{
    out.push(b'{')?;
    put_members(out, heads, cells)
}

// Appends the members and the closing brace.
fn put_members(out: &mut Vec<u8>, heads: &[Bytes], cells: &[Cell]) -> Result<(), AllocError>
    ensures { OnOk result (out.new.items ≡ out.old.items ++ headed_text heads.now (cells_of cells.now)) }
{
    match heads {
        [head, heads @ ..] => match cells {
            [cell, cells @ ..] => {
                put_member(out, head.as_slice(), cell)?;
                put_members(out, heads, cells)
            }
            [] => put_bracket(out),
        },
        [] => put_bracket(out),
    }
}

fn put_bracket(out: &mut Vec<u8>) -> Result<(), AllocError>
    ensures { OnOk result (out.new.items ≡ out.old.items ++ 125 ∷ []) }
{
    out.push(b'}')?;
    Ok(())
}

fn put_member(out: &mut Vec<u8>, head: &[u8], cell: &Cell) -> Result<(), AllocError>
    ensures { OnOk result (out.new.items ≡ out.old.items ++ (head.now ++ cell_text (cell_of cell.now))) }
{
    out.extend_from_slice(head)?;
    put_cell(out, cell)
}

fn put_cell(out: &mut Vec<u8>, cell: &Cell) -> Result<(), AllocError>
    ensures { OnOk result (out.new.items ≡ out.old.items ++ cell_text (cell_of cell.now)) }
{
    match cell {
        Cell::Stamp(moment) => put_moment(out, *moment),
        Cell::Plain(json) => append_compact(out, json),
    }
}

fn put_moment(out: &mut Vec<u8>, moment: Moment) -> Result<(), AllocError>
    ensures { OnOk result (out.new.items ≡ out.old.items ++ moment_text moment) }
{
    if can_be_printed(moment) {
        put_stamp(out, moment)
    } else {
        out.extend_from_slice(b"null")?;
        Ok(())
    }
}

// Whether the moment has a stamp, or is up to 3,650 days after one that has.
fn can_be_printed(moment: Moment) -> bool
    ensures value { result ≡ can_be_printed moment }
    ensures printable { IsTrue result ↔ IsPrintable moment }
{
    let nanos = moment.as_nanosecond();
    nanos >= -62_135_683_140_000_000_000 && nanos <= 250_593_609_539_999_999_999
}

fn put_stamp(out: &mut Vec<u8>, moment: Moment) -> Result<(), AllocError>
    requires { IsPrintable moment }
    ensures { OnOk result (out.new.items ≡ out.old.items ++ quoted (short_text moment)) }
{
    let text = write_stamp(moment);
    out.push(b'"')?;
    out.extend_from_slice(&text)?;
    out.push(b'"')?;
    Ok(())
}
