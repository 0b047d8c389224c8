//! Writes canonical texts of columns directly, without a JSON tree or copies of values.
ghost use Rattle.std.specs.Prelude.{◌≡◌, ◌++◌, ◌∷◌, [], OnOk, IsTrue, map, decimal, false};
ghost use Rattle.std.specs.List.{AllByRecursion};
ghost use Rattle.table_spec.specs.text_spec.Json.{boolean, number, string, array, object, items_of, members_of};
ghost use Rattle.table_spec.specs.text_spec.Compact.{canonical, comma_if, quoted};
ghost use Rattle.table_spec.specs.stamp_time.Range.{IsPrintable};
ghost use Rattle.table_spec.specs.fleet_rows.Printed.{full_text};
ghost use Rattle.table_spec.specs.history_spec.Report.{text_or_null, bool_or_null, number_or_null, stamp_or_null};
ghost use Rattle.table_spec.specs.Cells.{tags_value};
ghost use Rattle.row_cells.specs.Shown.{shown_json};
ghost use Rattle.row_cells.specs.Texts.{rises, member_text, members_text, column, CanBeText, IfPrintable};

use crate::shown::Shown;
use itoa::Buffer;
use std::alloc::{AllocError, Global};
use table_spec::json_tree::{
    Text, append_canonical, append_canonical_items, append_canonical_members, append_quoted,
};
use table_spec::stamp_time::{Moment, write_full};

/// Appends the canonical text of the object with these columns.
pub(crate) fn put_object(
    alloc: Global,
    out: &mut Vec<u8>,
    columns: &[(&str, Shown)],
) -> Result<(), AllocError>
    requires order { IsTrue (rises (map (λ c. c.0.now) columns.now)) }
    requires moments { AllByRecursion (λ c. CanBeText c.1) columns.now }
    ensures { OnOk result (out.new.items ≡ out.old.items ++ canonical (object (members_of (map column columns.now)))) }
{
    out.push(b'{')?;
    put_columns(alloc, out, false, columns)?;
    out.push(b'}')?;
    Ok(())
}

/// Appends the columns as members. A comma precedes the first if `later` is true.
pub(crate) fn put_columns(
    alloc: Global,
    out: &mut Vec<u8>,
    later: bool,
    columns: &[(&str, Shown)],
) -> Result<(), AllocError>
    requires { AllByRecursion (λ c. CanBeText c.1) columns.now }
    ensures { OnOk result (out.new.items ≡ out.old.items ++ members_text later (map column columns.now)) }
{
    let mut after = later;
    for column in columns {
        put_name(out, after, column.0)?;
        put_value(alloc, out, &column.1)?;
        after = true;
    }
    Ok(())
}

/// Appends a member's name and the colon, after a comma if `later` is true.
pub(crate) fn put_name(out: &mut Vec<u8>, later: bool, name: &str) -> Result<(), AllocError>
    ensures { OnOk result (out.new.items ≡ out.old.items ++ comma_if later ++ quoted name.now ++ 58 ∷ []) }
{
    put_comma(out, later)?;
    append_quoted(out, name)?;
    out.push(b':')?;
    Ok(())
}

pub(crate) fn put_comma(out: &mut Vec<u8>, later: bool) -> Result<(), AllocError>
    ensures { OnOk result (out.new.items ≡ out.old.items ++ comma_if later) }
{
    if later {
        out.push(b',')?;
    }
    Ok(())
}

fn put_value(alloc: Global, out: &mut Vec<u8>, shown: &Shown) -> Result<(), AllocError>
    requires { CanBeText shown.now }
    ensures { OnOk result (out.new.items ≡ out.old.items ++ canonical (shown_json shown.now)) }
{
    match shown {
        Shown::Null => out.extend_from_slice(b"null"),
        Shown::Text(text) => append_quoted(out, text.as_str()),
        Shown::OptionalText(text) => put_optional_text(out, text),
        Shown::Word(word) => append_quoted(out, word),
        Shown::Flag(flag) => put_flag(out, *flag),
        Shown::OptionalFlag(flag) => put_optional_flag(out, *flag),
        Shown::OptionalNumber(number) => put_number(out, *number),
        Shown::Stamp(moment) => put_stamp(out, *moment),
        Shown::OptionalStamp(moment) => put_optional_stamp(out, *moment),
        Shown::Value(value) => append_canonical(alloc, out, value),
        Shown::List(items) => append_canonical_items(alloc, out, items),
        Shown::Object(members) => append_canonical_members(alloc, out, members),
        Shown::Tags(tags) => put_tags(out, tags),
    }
}

fn put_optional_text(out: &mut Vec<u8>, text: &Option<Text>) -> Result<(), AllocError>
    ensures { OnOk result (out.new.items ≡ out.old.items ++ canonical (text_or_null text.now)) }
{
    match text {
        Some(text) => append_quoted(out, text.as_str()),
        None => out.extend_from_slice(b"null"),
    }
}

fn put_flag(out: &mut Vec<u8>, flag: bool) -> Result<(), AllocError>
    ensures { OnOk result (out.new.items ≡ out.old.items ++ canonical (boolean flag)) }
{
    if flag {
        out.extend_from_slice(b"true")
    } else {
        out.extend_from_slice(b"false")
    }
}

fn put_optional_flag(out: &mut Vec<u8>, flag: Option<bool>) -> Result<(), AllocError>
    ensures { OnOk result (out.new.items ≡ out.old.items ++ canonical (bool_or_null flag)) }
{
    match flag {
        Some(flag) => put_flag(out, flag),
        None => out.extend_from_slice(b"null"),
    }
}

fn put_number(out: &mut Vec<u8>, number: Option<u64>) -> Result<(), AllocError>
    ensures { OnOk result (out.new.items ≡ out.old.items ++ canonical (number_or_null number)) }
{
    match number {
        Some(number) => {
            let mut buffer = Buffer::new();
            out.extend_from_slice(buffer.format(number).as_bytes())
        }
        None => out.extend_from_slice(b"null"),
    }
}

fn put_stamp(out: &mut Vec<u8>, moment: Moment) -> Result<(), AllocError>
    requires { IsPrintable moment }
    ensures { OnOk result (out.new.items ≡ out.old.items ++ canonical (string (full_text moment))) }
{
    let text = write_full(moment);
    out.push(b'"')?;
    out.extend_from_slice(&text)?;
    out.push(b'"')?;
    Ok(())
}

fn put_optional_stamp(out: &mut Vec<u8>, moment: Option<Moment>) -> Result<(), AllocError>
    requires { IfPrintable moment }
    ensures { OnOk result (out.new.items ≡ out.old.items ++ canonical (stamp_or_null moment)) }
{
    match moment {
        Some(moment) => put_stamp(out, moment),
        None => out.extend_from_slice(b"null"),
    }
}

fn put_tags(out: &mut Vec<u8>, tags: &[Text]) -> Result<(), AllocError>
    ensures { OnOk result (out.new.items ≡ out.old.items ++ canonical (tags_value tags.now)) }
{
    out.push(b'[')?;
    let mut later = false;
    for tag in tags {
        put_comma(out, later)?;
        append_quoted(out, tag.as_str())?;
        later = true;
    }
    out.push(b']')?;
    Ok(())
}
