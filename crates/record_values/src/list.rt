//! Reads lists from the front of bytes: a count, and as many items.
//!
//! A count reserves no memory: the list grows as its items are read, and reading ends at the first bad item.
ghost use Rattle.std.specs.Prelude.{◌≡◌, ◌<◌, ◌^◌, length, IfOk, IfSome};
ghost use Rattle.std.specs.List.{AllByRecursion};
ghost use Rattle.record_fields.specs.history_spec.Lawful.{IsJson};
ghost use Rattle.record_fields.specs.Reading.{Shows, text_at};
ghost use Rattle.record_values.specs.Fields.{json_at};
ghost use Rattle.record_values.specs.Lists.{items_at, list_at, rise_from, rise, tags_at};

use crate::json::take_json;
use json_read::json_tree::{Items, Text};
use record_fields::fleet_rows::Names;
use record_fields::{take_text, take_u32};
use std::alloc::{AllocError, Global};

#[tactic(auto, using(crate::proofs::Lists::none_before, crate::proofs::Lists::step_read, crate::proofs::Lists::fail_read, crate::proofs::Lists::done_read))]
fn values_of(alloc: Global, count: u32, bytes: &[u8]) -> Result<Option<(Items, &[u8])>, AllocError>
    ensures { IfOk result (λ o. Shows (λ x. (x.0, x.1.now)) o (items_at (json_at 125) count bytes.now)) }
{
    let mut done = Items::new(alloc);
    let mut left = count;
    let mut rest = bytes;
    'reading: while left > 0 {
        match take_json(alloc, 125, rest)? {
            None => return Ok(None),
            Some((json, behind)) => {
                done.push(json)?;
                rest = behind;
            }
        }
        left -= 1;
    }
    Ok(Some((done, rest)))
}

#[tactic(auto, unfolding(crate::specs::Lists::list_at))]
fn list_of(alloc: Global, bytes: &[u8]) -> Result<Option<(Items, &[u8])>, AllocError>
    ensures { IfOk result (λ o. Shows (λ x. (x.0, x.1.now)) o (list_at (json_at 125) bytes.now)) }
{
    let Some((count, rest)) = take_u32(bytes) else {
        return Ok(None);
    };
    values_of(alloc, count, rest)
}

/// Reads values of at most 125 levels.
pub fn take_values(alloc: Global, bytes: &[u8]) -> Result<Option<(Items, &[u8])>, AllocError>
    ensures list { IfOk result (λ o. Shows (λ x. (x.0, x.1.now)) o (list_at (json_at 125) bytes.now)) }
    ensures fit { IfOk result (λ o. IfSome o (λ x. AllByRecursion (IsJson 125) x.0 × (length x.0 < 2 ^ 32))) }
{
    list_of(alloc, bytes)
}

#[tactic(auto, using(crate::proofs::Lists::none_before, crate::proofs::Lists::step_read, crate::proofs::Lists::fail_read, crate::proofs::Lists::done_read))]
fn names_of(alloc: Global, count: u32, bytes: &[u8]) -> Result<Option<(Names, &[u8])>, AllocError>
    ensures { IfOk result (λ o. Shows (λ x. (x.0, x.1.now)) o (items_at text_at count bytes.now)) }
{
    // (a text takes four bytes at least)
    let mut done = Names::with_capacity(alloc, (count as usize).min(bytes.len() / 4))?;
    let mut left = count;
    let mut rest = bytes;
    'reading: while left > 0 {
        match take_text(rest) {
            None => return Ok(None),
            Some((text, behind)) => {
                done.push(Text::from_str(alloc, text)?)?;
                rest = behind;
            }
        }
        left -= 1;
    }
    Ok(Some((done, rest)))
}

// Whether each text is greater than the one before it.
fn rise_from(first: &str, rest: &[Text]) -> bool
    ensures { result ≡ rise_from first.now rest.now }
{
    let mut last = first;
    for text in rest {
        if !last.cmp(text.as_str()).is_lt() {
            return false;
        }
        last = text.as_str();
    }
    true
}

fn rise(names: &[Text]) -> bool
    ensures { result ≡ rise names.now }
{
    match names {
        [] => true,
        [first, rest @ ..] => rise_from(first.as_str(), rest),
    }
}

/// Reads tags, which are strictly sorted by their bytes.
#[tactic(auto, unfolding(crate::specs::Lists::list_at, crate::specs::Lists::tags_at))]
pub fn take_tags(alloc: Global, bytes: &[u8]) -> Result<Option<(Names, &[u8])>, AllocError>
    ensures { IfOk result (λ o. Shows (λ x. (x.0, x.1.now)) o (tags_at bytes.now)) }
{
    let Some((count, rest)) = take_u32(bytes) else {
        return Ok(None);
    };
    match names_of(alloc, count, rest)? {
        None => Ok(None),
        Some((names, rest)) => {
            if rise(names.as_slice()) {
                Ok(Some((names, rest)))
            } else {
                Ok(None)
            }
        }
    }
}
