//! Lists the values of columns by reference. One loop makes a row's cells from such a list, and another the text that is hashed.
ghost use Rattle.std.specs.Prelude.{◌≡◌, ◌++◌, IfOk, OnOk, codes, decimal, map};
ghost use Rattle.table_spec.specs.text_spec.Json.{null, boolean, number, string, array, object, items_of, members_of};
ghost use Rattle.table_spec.specs.json_tree.Tree.{json_of};
ghost use Rattle.table_spec.specs.fleet_rows.Cell.{cell_of, plain, stamp};
ghost use Rattle.table_spec.specs.history_spec.Report.{text_or_null, bool_or_null, number_or_null};
ghost use Rattle.table_spec.specs.Cells.{moment_or_null, text_cell, text_cell_or_null, tags_value};
ghost use Rattle.row_cells.specs.Shown.{shown_cell};

use itoa::Buffer;
use std::alloc::{AllocError, Global};
use table_spec::fleet_rows::{Cell, Cells};
use table_spec::json_tree::{Items, Json, Members, Number, Text};
use table_spec::stamp_time::Moment;

/// The value of a column.
#[derive(Drop)]
pub(crate) enum Shown<'a> {
    Null,
    Text(&'a Text),
    OptionalText(&'a Option<Text>),
    Word(&'static str),
    Flag(bool),
    OptionalFlag(Option<bool>),
    OptionalNumber(Option<u64>),
    Stamp(Moment),
    OptionalStamp(Option<Moment>),
    Value(&'a Json),
    List(&'a Items),
    Object(&'a Members),
    Tags(&'a [Text]),
}

/// The cells of the columns, in their order.
pub(crate) fn cells(alloc: Global, columns: &[Shown]) -> Result<Cells, AllocError>
    ensures { IfOk result (λ cells. cells ≡ map shown_cell columns.now) }
{
    let mut cells = Cells::with_capacity(alloc, columns.len())?;
    append(alloc, &mut cells, columns)?;
    Ok(cells)
}

/// Appends the cells of the columns. Without memory, only a prefix of them may have been appended.
pub(crate) fn append(alloc: Global, cells: &mut Cells, columns: &[Shown]) -> Result<(), AllocError>
    ensures { OnOk result (cells.new ≡ cells.old ++ map shown_cell columns.now) }
{
    for column in columns {
        cells.push(cell(alloc, column)?)?;
    }
    Ok(())
}

fn cell(alloc: Global, shown: &Shown) -> Result<Cell, AllocError>
    ensures { IfOk result (λ cell. cell_of cell ≡ shown_cell shown.now) }
{
    match shown {
        Shown::Null => Ok(Cell::Plain(Json::Null)),
        Shown::Text(text) => text_cell(alloc, text.as_str()),
        Shown::OptionalText(text) => optional_text_cell(alloc, text),
        Shown::Word(word) => text_cell(alloc, word),
        Shown::Flag(flag) => Ok(Cell::Plain(Json::Bool(*flag))),
        Shown::OptionalFlag(flag) => Ok(flag_cell(*flag)),
        Shown::OptionalNumber(number) => number_cell(alloc, *number),
        Shown::Stamp(moment) => Ok(Cell::Stamp(*moment)),
        Shown::OptionalStamp(moment) => Ok(moment_cell(*moment)),
        Shown::Value(value) => Ok(Cell::Plain(value.copy(alloc)?)),
        Shown::List(items) => Ok(Cell::Plain(Json::List(items.copy(alloc)?))),
        Shown::Object(members) => Ok(Cell::Plain(Json::Map(members.copy(alloc)?))),
        Shown::Tags(tags) => tags_cell(alloc, tags),
    }
}

fn text_cell(alloc: Global, text: &str) -> Result<Cell, AllocError>
    ensures { IfOk result (λ cell. cell_of cell ≡ text_cell text.now) }
{
    Ok(Cell::Plain(Json::Text(Text::from_str(alloc, text)?)))
}

fn optional_text_cell(alloc: Global, text: &Option<Text>) -> Result<Cell, AllocError>
    ensures { IfOk result (λ cell. cell_of cell ≡ text_cell_or_null text.now) }
{
    match text {
        Some(text) => text_cell(alloc, text.as_str()),
        None => Ok(Cell::Plain(Json::Null)),
    }
}

fn flag_cell(flag: Option<bool>) -> Cell
    ensures { cell_of result ≡ plain (bool_or_null flag) }
{
    match flag {
        Some(flag) => Cell::Plain(Json::Bool(flag)),
        None => Cell::Plain(Json::Null),
    }
}

fn moment_cell(moment: Option<Moment>) -> Cell
    ensures { cell_of result ≡ moment_or_null moment }
{
    match moment {
        Some(moment) => Cell::Stamp(moment),
        None => Cell::Plain(Json::Null),
    }
}

fn number_cell(alloc: Global, number: Option<u64>) -> Result<Cell, AllocError>
    ensures { IfOk result (λ cell. cell_of cell ≡ plain (number_or_null number)) }
{
    match number {
        Some(number) => Ok(Cell::Plain(Json::Num(number_of(alloc, number)?))),
        None => Ok(Cell::Plain(Json::Null)),
    }
}

fn number_of(alloc: Global, number: u64) -> Result<Number, AllocError>
    ensures { IfOk result (λ n. n ≡ decimal number) }
{
    let mut buffer = Buffer::new();
    let digits = Text::from_str(alloc, buffer.format(number))?;
    Ok(Number::of(digits))
}

fn tags_cell(alloc: Global, tags: &[Text]) -> Result<Cell, AllocError>
    ensures { IfOk result (λ cell. cell_of cell ≡ plain (tags_value tags.now)) }
{
    let mut items = Items::new(alloc);
    for tag in tags {
        items.push(Json::Text(Text::from_str(alloc, tag.as_str())?))?;
    }
    Ok(Cell::Plain(Json::List(items)))
}
