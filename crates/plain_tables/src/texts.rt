//! Moments and cells as text.
use fleet_rows::json_tree::append_compact;
use fleet_rows::{Cell, Row};
use stamp_time::{Moment, write_full};
use std::alloc::AllocError;

/// Appends the texts, one after the other.
pub fn put_words(out: &mut Vec<u8>, words: &[&str]) -> Result<(), AllocError> {
    for word in words {
        out.extend_from_slice(word.as_bytes())?;
    }
    Ok(())
}

/// Appends the stamp of nine digits.
#[tactic(auto, using(stamp_time::proofs::RangeLaws::stamp_is_printable))]
pub fn put_moment(out: &mut Vec<u8>, moment: Moment) -> Result<(), AllocError> {
    if moment.has_stamp() {
        out.extend_from_slice(&write_full(moment))
    } else {
        out.extend_from_slice(b"no stamp")
    }
}

/// The same, or `null` for none.
pub fn put_told(out: &mut Vec<u8>, moment: Option<Moment>) -> Result<(), AllocError> {
    match moment {
        Some(moment) => put_moment(out, moment),
        None => out.extend_from_slice(b"null"),
    }
}

/// Appends what a cell shows.
pub fn put_cell(out: &mut Vec<u8>, cell: &Cell) -> Result<(), AllocError> {
    match cell {
        Cell::Stamp(moment) => put_moment(out, *moment),
        Cell::Plain(json) => append_compact(out, json),
    }
}

/// Appends the cells of a row, each behind the first behind a space, and a line end.
pub fn put_row(out: &mut Vec<u8>, row: &Row) -> Result<(), AllocError> {
    for (place, cell) in row.cells.as_slice().iter().enumerate() {
        if place > 0 {
            out.push(b' ')?;
        }
        put_cell(out, cell)?;
    }
    out.extend_from_slice(b"\n")
}
