//! Reads JSON values from the front of bytes: compact texts of a limited nesting.
//!
//! The text is parsed, and the compact text of the value is compared with it. A text is at least as long as the compact text of
//! its value, so a buffer of its length is enough.
ghost use Rattle.std.specs.Prelude.{◌≡◌, ◌≤◌, Option, IfOk, IfSome, []};
ghost use Rattle.std.specs.Option.{option_map};
ghost use Rattle.std.specs.Str.{bytes_eq};
ghost use Rattle.json_read.specs.text_spec.Json.{levels};
ghost use Rattle.json_read.specs.text_spec.Compact.{compact};
ghost use Rattle.json_read.specs.json_machine.Machine.{value, verdict};
ghost use Rattle.json_read.specs.json_tree.Tree.{json_of};
ghost use Rattle.record_fields.specs.Reading.{Shows};
ghost use Rattle.record_values.specs.Fields.{spelled_value, compact_value, json_at, members_at};

use json_read::json_tree::{Json, Members, append_compact, levels};
use json_read::{ReadFault, read};
use record_fields::take_bytes;
use std::alloc::{AllocError, Global};

#[tactic(auto, using(crate::proofs::Values::spelled_is, crate::proofs::Values::not_json_is, crate::proofs::Values::too_deep_is))]
fn value_of(alloc: Global, bytes: &[u8]) -> Result<Option<Json>, AllocError>
    ensures { IfOk result (λ o. option_map json_of o ≡ spelled_value (verdict 127 [] value 0 bytes.now)) }
{
    match read(alloc, bytes) {
        Ok(json) => Ok(Some(json)),
        Err(ReadFault::NotJson { .. }) => Ok(None),
        Err(ReadFault::TooDeep { .. }) => Ok(None),
        Err(ReadFault::Memory) => Err(AllocError),
    }
}

fn is_compact(alloc: Global, json: &Json, bytes: &[u8]) -> Result<bool, AllocError>
    ensures { IfOk result (λ b. b ≡ bytes_eq (compact (json_of json.now)) bytes.now) }
{
    let mut out = Vec::with_capacity(alloc, bytes.len())?;
    append_compact(&mut out, json)?;
    Ok(out.as_slice() == bytes)
}

/// The value of at most `most` levels whose compact text the bytes are, or None.
#[tactic(auto, unfolding(crate::specs::Fields::compact_value))]
pub(crate) fn compact_value(
    alloc: Global,
    most: u32,
    bytes: &[u8],
) -> Result<Option<Json>, AllocError>
    ensures value { IfOk result (λ o. option_map json_of o ≡ compact_value most bytes.now) }
    ensures within { IfOk result (λ o. IfSome o (λ j. levels (json_of j) ≤ most)) }
{
    match value_of(alloc, bytes)? {
        None => Ok(None),
        Some(json) => {
            if levels(&json) <= most && is_compact(alloc, &json, bytes)? {
                Ok(Some(json))
            } else {
                Ok(None)
            }
        }
    }
}

/// Reads a value of at most `most` levels. Also returns the bytes after it.
#[tactic(auto, unfolding(crate::specs::Fields::json_at))]
pub(crate) fn take_json(
    alloc: Global,
    most: u32,
    bytes: &[u8],
) -> Result<Option<(Json, &[u8])>, AllocError>
    ensures value { IfOk result (λ o. Shows (λ x. (json_of x.0, x.1.now)) o (json_at most bytes.now)) }
    ensures within { IfOk result (λ o. IfSome o (λ x. levels (json_of x.0) ≤ most)) }
{
    let Some((text, rest)) = take_bytes(bytes) else {
        return Ok(None);
    };
    match compact_value(alloc, most, text)? {
        None => Ok(None),
        Some(json) => Ok(Some((json, rest))),
    }
}

/// Reads an object of at most `most` levels. Also returns the bytes after it.
#[tactic(auto, unfolding(crate::specs::Fields::members_at))]
pub fn take_members(
    alloc: Global,
    most: u32,
    bytes: &[u8],
) -> Result<Option<(Members, &[u8])>, AllocError>
    ensures { IfOk result (λ o. Shows (λ x. (x.0, x.1.now)) o (members_at most bytes.now)) }
{
    match take_json(alloc, most, bytes)? {
        None => Ok(None),
        Some((json, rest)) => match json {
            Json::Map(members) => Ok(Some((members, rest))),
            _ => Ok(None),
        },
    }
}
