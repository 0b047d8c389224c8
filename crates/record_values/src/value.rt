//! Reads texts, whole numbers and options from the front of bytes. These calls take no memory; texts are borrowed.
ghost use Rattle.std.specs.Prelude.{◌≡◌, ◌≤◌, Option, IfOk};
ghost use Rattle.std.specs.Option.{option_map};
ghost use Rattle.std.specs.Int.{w64};
ghost use Rattle.record_fields.specs.Reading.{Shows, number_at, text_at, bool_at, moment_at, optional_at};
ghost use Rattle.record_values.specs.Fields.{certname_at, whole_at, between_at};

use json_read::json_tree::Text;
use json_read::stamp_time::Moment;
use record_fields::{take_bool, take_moment, take_text, take_u32, take_u64};
use std::alloc::{AllocError, Global};

/// Reads a text that isn't empty.
#[tactic(auto, unfolding(crate::specs::Fields::certname_at))]
pub fn take_certname(bytes: &[u8]) -> Option<(&str, &[u8])>
    ensures { Shows (λ x. (x.0.now, x.1.now)) result (certname_at bytes.now) }
{
    let (text, rest) = take_text(bytes)?;
    if text.is_empty() {
        return None;
    }
    Some((text, rest))
}

/// Reads a whole number of at most 18 digits.
#[tactic(auto, unfolding(crate::specs::Fields::whole_at))]
pub(crate) fn take_whole(bytes: &[u8]) -> Option<(u64, &[u8])>
    ensures { Shows (λ x. (x.0, x.1.now)) result (whole_at bytes.now) }
{
    let (number, rest) = take_u64(bytes)?;
    if number < 1_000_000_000_000_000_000 {
        Some((number, rest))
    } else {
        None
    }
}

/// Reads a number within these bounds.
#[tactic(auto, unfolding(crate::specs::Fields::between_at))]
pub fn take_between(low: u32, high: u32, bytes: &[u8]) -> Option<(u32, &[u8])>
    ensures { Shows (λ x. (x.0, x.1.now)) result (between_at low high bytes.now) }
{
    let (number, rest) = take_u32(bytes)?;
    if low <= number && number <= high {
        Some((number, rest))
    } else {
        None
    }
}

#[tactic(auto, unfolding(record_fields::specs::Reading::optional_at))]
pub fn take_optional_text(bytes: &[u8]) -> Option<(Option<&str>, &[u8])>
    ensures { Shows (λ x. (option_map (λ s. s.now) x.0, x.1.now)) result (optional_at text_at bytes.now) }
{
    match bytes {
        [0, rest @ ..] => Some((None, rest)),
        [1, rest @ ..] => {
            let (text, rest) = take_text(rest)?;
            Some((Some(text), rest))
        }
        _ => None,
    }
}

#[tactic(auto, unfolding(record_fields::specs::Reading::optional_at))]
pub fn take_optional_whole(bytes: &[u8]) -> Option<(Option<u64>, &[u8])>
    ensures { Shows (λ x. (x.0, x.1.now)) result (optional_at whole_at bytes.now) }
{
    match bytes {
        [0, rest @ ..] => Some((None, rest)),
        [1, rest @ ..] => {
            let (number, rest) = take_whole(rest)?;
            Some((Some(number), rest))
        }
        _ => None,
    }
}

#[tactic(auto, unfolding(record_fields::specs::Reading::optional_at))]
pub fn take_optional_u64(bytes: &[u8]) -> Option<(Option<u64>, &[u8])>
    ensures { Shows (λ x. (x.0, x.1.now)) result (optional_at (number_at w64) bytes.now) }
{
    match bytes {
        [0, rest @ ..] => Some((None, rest)),
        [1, rest @ ..] => {
            let (number, rest) = take_u64(rest)?;
            Some((Some(number), rest))
        }
        _ => None,
    }
}

#[tactic(auto, unfolding(record_fields::specs::Reading::optional_at))]
pub fn take_optional_bool(bytes: &[u8]) -> Option<(Option<bool>, &[u8])>
    ensures { Shows (λ x. (x.0, x.1.now)) result (optional_at bool_at bytes.now) }
{
    match bytes {
        [0, rest @ ..] => Some((None, rest)),
        [1, rest @ ..] => {
            let (value, rest) = take_bool(rest)?;
            Some((Some(value), rest))
        }
        _ => None,
    }
}

#[tactic(auto, unfolding(record_fields::specs::Reading::optional_at))]
pub fn take_optional_moment(bytes: &[u8]) -> Option<(Option<Moment>, &[u8])>
    ensures { Shows (λ x. (x.0, x.1.now)) result (optional_at moment_at bytes.now) }
{
    match bytes {
        [0, rest @ ..] => Some((None, rest)),
        [1, rest @ ..] => match take_moment(rest) {
            None => None,
            Some((moment, rest)) => Some((Some(moment), rest)),
        },
        _ => None,
    }
}

/// A copy of the text, if there is one.
pub fn own_optional(alloc: Global, text: Option<&str>) -> Result<Option<Text>, AllocError>
    ensures { IfOk result (λ o. o ≡ option_map (λ s. s.now) text.entry) }
{
    match text {
        None => Ok(None),
        Some(text) => Ok(Some(Text::from_str(alloc, text)?)),
    }
}
