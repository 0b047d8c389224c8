//! Marks rows so that those of one group are found together.
//!
//! Rows of one group have the same mark. Sorting doesn't bring them together: `[1, 2]` and `[1.0, 2]` are the same, and the total
//! order has other values between them. So each row gets a text of the cells that it is grouped by, which is equal for cells that
//! are the same ([`same_text`]). The row's mark is the number of that text. Rows with the same mark are still compared.
//!
//! Numbers are found by a hash of the text. The caller passes its keys: if they are random, nobody can choose texts that collide. A row
//! that is in one group with the row before it, or with the row that began the next mark, has that mark without a text.
ghost use Rattle.std.specs.Prelude.{◌≡◌, ◌++◌, ℕ, List, IfOk, IfSome, OnOk, Some};
ghost use Rattle.std.specs.Fmt.{signed_decimal};
ghost use Rattle.fleet_tables.specs.fleet_rows.Cell.{plain};
ghost use Rattle.same_text.specs.text_spec.Json.{boolean};
ghost use Rattle.query_plan.specs.means_spec.Groups.{in_one_group, key_of};
ghost use Rattle.paging_text.specs.Shown.{cell_or_null};
ghost use Rattle.row_views.specs.Seen.{seen_value};
ghost use Rattle.query_rows.specs.Marked.{cell_text, key_text, number_of, rows_marked, AreMarked, HaveNumbers, Numbers};

use crate::compare::same_seen;
use fleet_tables::fleet_rows::{Cell, Entity};
use fleet_tables::stamp_time::Moment;
use indexmap::IndexSet;
use itoa::Buffer;
use pattern_port::Keys;
use query_plan::query_spec::Name;
use row_views::{Seen, View};
use same_text::append_same;
use same_text::json_tree::append_quoted;
use std::alloc::{AllocError, Global};

/// A row and its mark.
#[derive(Drop)]
pub struct Marked<'a> {
    pub row: &'a View<'a>,
    pub mark: usize,
}

/// Appends the text of a moment.
pub(crate) fn append_moment(out: &mut Vec<u8>, moment: Moment) -> Result<(), AllocError>
    ensures { OnOk result (out.new.items ≡ out.old.items ++ signed_decimal moment) }
{
    let mut buffer = Buffer::new();
    out.extend_from_slice(buffer.format(moment.as_nanosecond()).as_bytes())
}

/// Appends the text of a cell. Cells that are the same have the same text.
pub(crate) fn append_cell(
    alloc: Global,
    out: &mut Vec<u8>,
    cell: Option<&Cell>,
) -> Result<(), AllocError>
    ensures { OnOk result (out.new.items ≡ out.old.items ++ cell_text (cell_or_null cell.entry)) }
{
    match cell {
        Some(Cell::Stamp(moment)) => append_moment(out, *moment),
        Some(Cell::Plain(json)) => append_same(alloc, out, json),
        None => out.extend_from_slice(b"null"),
    }
}

fn append_flag(out: &mut Vec<u8>, flag: bool) -> Result<(), AllocError>
    ensures { OnOk result (out.new.items ≡ out.old.items ++ cell_text (plain (boolean flag))) }
{
    if flag {
        out.extend_from_slice(b"true")
    } else {
        out.extend_from_slice(b"false")
    }
}

/// Appends the text of the value that a field names.
pub(crate) fn append_seen(
    alloc: Global,
    out: &mut Vec<u8>,
    seen: &Seen<'_>,
) -> Result<(), AllocError>
    ensures { OnOk result (out.new.items ≡ out.old.items ++ cell_text (seen_value seen.now)) }
{
    match seen {
        Seen::Cell(cell) => append_cell(alloc, out, Some(*cell)),
        Seen::Value(json) => append_same(alloc, out, json),
        Seen::Text(text) => append_quoted(out, text.as_str()),
        Seen::Flag(flag) => append_flag(out, *flag),
        Seen::Stamp(nanos) => append_moment(out, Moment::from_nanosecond(*nanos)),
        Seen::Null => out.extend_from_slice(b"null"),
    }
}

// The text of the row's cells in these columns.
fn text_of(
    alloc: Global,
    entity: Option<Entity>,
    columns: &[Name],
    row: &View<'_>,
) -> Result<Vec<u8>, AllocError>
    ensures { IfOk result (λ text. text.items ≡ key_text (key_of entity columns.now row.now)) }
{
    let mut text = Vec::new(alloc);
    for column in columns {
        append_seen(alloc, &mut text, &row.seen(entity, column.text.as_str()))?;
        text.push(b',')?;
    }
    Ok(text)
}

/// The number of a text. A new text gets the next number.
pub(crate) fn number_of(
    texts: &mut IndexSet<Vec<u8>, Keys>,
    text: Vec<u8>,
) -> Result<usize, AllocError>
    ensures number { IfOk result (λ number. number_of texts.new text.items ≡ Some number) }
    ensures kept { OnOk result ((other : List ℕ) (n : ℕ) → number_of texts.old other ≡ Some n → number_of texts.new other ≡ Some n) }
{
    let (number, _) = texts.insert_full(text)?;
    Ok(number)
}

/// The number of a text, if it has one.
pub(crate) fn known_number(texts: &IndexSet<Vec<u8>, Keys>, text: &[u8]) -> Option<usize>
    ensures { result ≡ number_of texts.now text.now }
{
    texts.get_index_of(text)
}

/// Whether two rows are the same in the columns that they are grouped by.
pub fn in_one_group(entity: Option<Entity>, columns: &[Name], a: &View<'_>, b: &View<'_>) -> bool
    ensures { result ≡ in_one_group (key_of entity columns.now) a.now b.now }
{
    for column in columns {
        let name = column.text.as_str();
        if !same_seen(&a.seen(entity, name), &b.seen(entity, name)) {
            return false;
        }
    }
    true
}

// The mark of the row at this index among those that began a mark, if it is in one group with that row.
fn guessed(
    entity: Option<Entity>,
    columns: &[Name],
    row: &View<'_>,
    firsts: &[Marked<'_>],
    at: usize,
) -> Option<usize>
    ensures { (texts : Numbers) → HaveNumbers (key_of entity columns.now) texts firsts.now
        → IfSome result (λ mark. number_of texts (key_text (key_of entity columns.now row.now)) ≡ Some mark) }
{
    if at >= firsts.len() {
        return None;
    }
    let first = &firsts[at];
    in_one_group(entity, columns, row, first.row).then_some(first.mark)
}

// The mark of the row's text. A row with a new text begins its mark.
fn numbered<'a>(
    alloc: Global,
    entity: Option<Entity>,
    columns: &[Name],
    row: &'a View<'a>,
    texts: &mut IndexSet<Vec<u8>, Keys>,
    firsts: &mut Vec<Marked<'a>>,
) -> Result<usize, AllocError>
    requires firsts { HaveNumbers (key_of entity columns.now) texts.old firsts.old.items }
    ensures firsts { OnOk result (HaveNumbers (key_of entity columns.now) texts.new firsts.new.items) }
    ensures number { IfOk result (λ mark. number_of texts.new (key_text (key_of entity columns.now row.now)) ≡ Some mark) }
    ensures kept { OnOk result ((other : List ℕ) (n : ℕ) → number_of texts.old other ≡ Some n → number_of texts.new other ≡ Some n) }
{
    let text = text_of(alloc, entity, columns, row)?;
    let mark = number_of(texts, text)?;
    if mark == firsts.len() {
        firsts.push(Marked { row, mark })?;
    }
    Ok(mark)
}

// The mark of the row. Rows of one group often stand side by side, and the groups of a node's rows often follow one another as those
// of the node before did. So the last mark and the next one are tried before a text is made, first the one that held of the row before.
fn mark_of<'a>(
    alloc: Global,
    entity: Option<Entity>,
    columns: &[Name],
    row: &'a View<'a>,
    texts: &mut IndexSet<Vec<u8>, Keys>,
    firsts: &mut Vec<Marked<'a>>,
    last: usize,
    stays: bool,
) -> Result<usize, AllocError>
    requires firsts { HaveNumbers (key_of entity columns.now) texts.old firsts.old.items }
    ensures firsts { OnOk result (HaveNumbers (key_of entity columns.now) texts.new firsts.new.items) }
    ensures number { IfOk result (λ mark. number_of texts.new (key_text (key_of entity columns.now row.now)) ≡ Some mark) }
    ensures kept { OnOk result ((other : List ℕ) (n : ℕ) → number_of texts.old other ≡ Some n → number_of texts.new other ≡ Some n) }
{
    let next = last.wrapping_add(1);
    let likely = if stays { last } else { next };
    let other = if stays { next } else { last };
    if let Some(mark) = guessed(entity, columns, row, firsts.as_slice(), likely) {
        return Ok(mark);
    }
    if let Some(mark) = guessed(entity, columns, row, firsts.as_slice(), other) {
        return Ok(mark);
    }
    numbered(alloc, entity, columns, row, texts, firsts)
}

/// The rows with their marks, for grouping by these columns.
pub fn with_marks<'a>(
    alloc: Global,
    keys: Keys,
    entity: Option<Entity>,
    columns: &[Name],
    rows: &'a [View<'a>],
) -> Result<Vec<Marked<'a>>, AllocError>
    ensures rows { IfOk result (λ all. rows_marked all.items ≡ rows.now) }
    ensures marks { IfOk result (λ all. AreMarked (key_of entity columns.now) all.items) }
{
    let mut texts = IndexSet::with_hasher(alloc, keys);
    let mut firsts = Vec::new(alloc);
    let mut all = Vec::with_capacity(alloc, rows.len())?;
    let mut last = 0;
    let mut stays = true;
    for row in rows {
        let mark = mark_of(
            alloc,
            entity,
            columns,
            row,
            &mut texts,
            &mut firsts,
            last,
            stays,
        )?;
        all.push(Marked { row, mark })?;
        stays = mark == last;
        last = mark;
    }
    Ok(all)
}
