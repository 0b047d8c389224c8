//! Lists the values of fields by reference, and writes one.
ghost use Rattle.std.specs.Prelude.{◌≡◌, ◌++◌, OnOk, is_some, map, not};
ghost use Rattle.std.specs.List.{AllByRecursion};
ghost use Rattle.std.specs.Option.{option_map};
ghost use Rattle.dump_laws.specs.dump_spec.history_spec.Lawful.{HasStamp, IfMoment};
ghost use Rattle.dump_laws.specs.dump_spec.json_machine.Values.{IsValue};
ghost use Rattle.dump_laws.specs.dump_spec.text_spec.Compact.{compact, comma_if};
ghost use Rattle.dump_laws.specs.dump_spec.text_spec.Json.{boolean, string, array, object, items_of, members_of};
ghost use Rattle.dump_laws.specs.dump_spec.Payloads.{list, members, whole, stamp, if_any, if_true};
ghost use Rattle.dump_writer.specs.Shown.{shown_value, value_text, CanBeShown};

use crate::stamp::put_stamp;
use fleet_rows::json_tree::{Members, Text, append_compact, append_quoted};
use fleet_rows::stamp_time::Moment;
use itoa::Buffer;
use packed_values::PackedItems;
use std::alloc::AllocError;

/// The value of a field, or none.
#[derive(Drop)]
pub(crate) enum Shown<'a> {
    Text(&'a Text),
    OptionalText(&'a Option<Text>),
    Flag(bool),
    OptionalFlag(Option<bool>),
    /// None if false.
    IfTrue(bool),
    OptionalNumber(Option<u64>),
    Stamp(Moment),
    OptionalStamp(Option<Moment>),
    Object(&'a Members),
    /// None if there are no members.
    IfMembers(&'a Members),
    /// None if there are no items.
    IfPacked(&'a PackedItems),
    /// None if there are no tags.
    IfTags(&'a [Text]),
}

/// Appends the compact text of the value, and nothing if there is none.
pub(crate) fn put_shown(out: &mut Vec<u8>, shown: &Shown) -> Result<(), AllocError>
    requires { CanBeShown shown.now }
    ensures { OnOk result (out.new.items ≡ out.old.items ++ value_text (shown_value shown.now)) }
{
    match shown {
        Shown::Text(text) => append_quoted(out, text.as_str()),
        Shown::OptionalText(text) => put_optional_text(out, text),
        Shown::Flag(flag) => put_flag(out, *flag),
        Shown::OptionalFlag(flag) => put_optional_flag(out, *flag),
        Shown::IfTrue(flag) => put_if_true(out, *flag),
        Shown::OptionalNumber(number) => put_number(out, *number),
        Shown::Stamp(moment) => put_moment(out, *moment),
        Shown::OptionalStamp(moment) => put_optional_moment(out, *moment),
        Shown::Object(members) => put_members(out, members),
        Shown::IfMembers(members) => put_if_members(out, members),
        Shown::IfPacked(items) => put_if_packed(out, items),
        Shown::IfTags(tags) => put_if_tags(out, tags),
    }
}

/// Whether there is a value.
pub(crate) fn is_there(shown: &Shown) -> bool
    requires { CanBeShown shown.now }
    ensures { result ≡ is_some (shown_value shown.now) }
{
    match shown {
        Shown::OptionalText(text) => text.is_some(),
        Shown::OptionalFlag(flag) => flag.is_some(),
        Shown::IfTrue(flag) => *flag,
        Shown::OptionalNumber(number) => number.is_some(),
        Shown::OptionalStamp(moment) => moment.is_some(),
        Shown::IfMembers(members) => members.len() > 0,
        Shown::IfPacked(items) => !is_nothing(items),
        Shown::IfTags(tags) => !tags.is_empty(),
        _ => true,
    }
}

fn put_optional_text(out: &mut Vec<u8>, text: &Option<Text>) -> Result<(), AllocError>
    ensures { OnOk result (out.new.items ≡ out.old.items ++ value_text (option_map string text.now)) }
{
    match text {
        Some(text) => append_quoted(out, text.as_str()),
        None => Ok(()),
    }
}

pub(crate) fn put_flag(out: &mut Vec<u8>, flag: bool) -> Result<(), AllocError>
    ensures { OnOk result (out.new.items ≡ out.old.items ++ compact (boolean flag)) }
{
    if flag {
        out.extend_from_slice(b"true")
    } else {
        out.extend_from_slice(b"false")
    }
}

fn put_optional_flag(out: &mut Vec<u8>, flag: Option<bool>) -> Result<(), AllocError>
    ensures { OnOk result (out.new.items ≡ out.old.items ++ value_text (option_map boolean flag)) }
{
    match flag {
        Some(flag) => put_flag(out, flag),
        None => Ok(()),
    }
}

fn put_if_true(out: &mut Vec<u8>, flag: bool) -> Result<(), AllocError>
    ensures { OnOk result (out.new.items ≡ out.old.items ++ value_text (if_true flag)) }
{
    if flag { put_flag(out, true) } else { Ok(()) }
}

fn put_number(out: &mut Vec<u8>, number: Option<u64>) -> Result<(), AllocError>
    ensures { OnOk result (out.new.items ≡ out.old.items ++ value_text (option_map whole number)) }
{
    match number {
        Some(number) => {
            let mut buffer = Buffer::new();
            out.extend_from_slice(buffer.format(number).as_bytes())
        }
        None => Ok(()),
    }
}

fn put_moment(out: &mut Vec<u8>, moment: Moment) -> Result<(), AllocError>
    requires { HasStamp moment }
    ensures { OnOk result (out.new.items ≡ out.old.items ++ compact (stamp moment)) }
{
    out.push(b'"')?;
    put_stamp(out, moment)?;
    out.push(b'"')?;
    Ok(())
}

fn put_optional_moment(out: &mut Vec<u8>, moment: Option<Moment>) -> Result<(), AllocError>
    requires { IfMoment moment }
    ensures { OnOk result (out.new.items ≡ out.old.items ++ value_text (option_map stamp moment)) }
{
    match moment {
        Some(moment) => put_moment(out, moment),
        None => Ok(()),
    }
}

// Appends a comma if another member or item precedes.
pub(crate) fn put_comma(out: &mut Vec<u8>, later: bool) -> Result<(), AllocError>
    ensures { OnOk result (out.new.items ≡ out.old.items ++ comma_if later) }
{
    if later {
        out.push(b',')?;
    }
    Ok(())
}

fn put_members(out: &mut Vec<u8>, map: &Members) -> Result<(), AllocError>
    ensures { OnOk result (out.new.items ≡ out.old.items ++ compact (object (members_of map.now))) }
{
    out.push(b'{')?;
    let mut later = false;
    for at in 0..map.len() {
        put_comma(out, later)?;
        let (key, value) = map.pair(at);
        append_quoted(out, key.as_str())?;
        out.push(b':')?;
        append_compact(out, value)?;
        later = true;
    }
    out.push(b'}')?;
    Ok(())
}

fn put_if_members(out: &mut Vec<u8>, map: &Members) -> Result<(), AllocError>
    ensures { OnOk result (out.new.items ≡ out.old.items ++ value_text (if_any members map.now)) }
{
    if map.len() == 0 {
        return Ok(());
    }
    put_members(out, map)
}

// Whether the list is empty: then its text is `[]`, and otherwise it is longer.
#[tactic(auto, using(crate::proofs::PackedLists::nothing_is_short))]
fn is_nothing(items: &PackedItems) -> bool
    requires { AllByRecursion IsValue items.now }
    ensures { result ≡ not (is_some (if_any list items.now)) }
{
    items.size() == 2
}

// A packed list stands as it is kept.
#[tactic(auto, using(crate::proofs::PackedLists::nothing_is_empty, crate::proofs::PackedLists::something_is_written))]
fn put_if_packed(out: &mut Vec<u8>, items: &PackedItems) -> Result<(), AllocError>
    requires { AllByRecursion IsValue items.now }
    ensures { OnOk result (out.new.items ≡ out.old.items ++ value_text (if_any list items.now)) }
{
    if is_nothing(items) {
        return Ok(());
    }
    out.extend_from_slice(items.text())
}

fn put_if_tags(out: &mut Vec<u8>, tags: &[Text]) -> Result<(), AllocError>
    ensures { OnOk result (out.new.items ≡ out.old.items ++ value_text (if_any (λ ts. list (map string ts)) tags.now)) }
{
    if tags.is_empty() {
        return Ok(());
    }
    put_tags(out, tags)
}

fn put_tags(out: &mut Vec<u8>, tags: &[Text]) -> Result<(), AllocError>
    ensures { OnOk result (out.new.items ≡ out.old.items ++ compact (array (items_of (map string tags.now)))) }
{
    out.push(b'[')?;
    let mut later = false;
    for tag in tags {
        put_comma(out, later)?;
        append_quoted(out, tag.as_str())?;
        later = true;
    }
    out.push(b']')?;
    Ok(())
}
