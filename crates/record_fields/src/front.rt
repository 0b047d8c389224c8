//! Reads fields from the front of bytes.
ghost use Rattle.std.specs.Prelude.{◌≡◌, Option};
ghost use Rattle.std.specs.Int.{w32, w64};
ghost use Rattle.record_fields.specs.Reading.{Shows, number_at, bytes_at, text_at, bool_at, kind_at, optional_at};

use record_spec::fleet_rows::Kind;

/// Reads a number of four bytes. Also returns the bytes after it.
pub fn take_u32(bytes: &[u8]) -> Option<(u32, &[u8])>
    ensures { Shows (λ x. (x.0, x.1.now)) result (number_at w32 bytes.now) }
{
    if bytes.len() < 4 {
        return None;
    }
    let (front, rest) = bytes.split_at(4);
    let number = u32::from_le_bytes([front[0], front[1], front[2], front[3]]);
    Some((number, rest))
}

/// Reads a number of eight bytes. Also returns the bytes after it.
pub fn take_u64(bytes: &[u8]) -> Option<(u64, &[u8])>
    ensures { Shows (λ x. (x.0, x.1.now)) result (number_at w64 bytes.now) }
{
    if bytes.len() < 8 {
        return None;
    }
    let (front, rest) = bytes.split_at(8);
    let number = u64::from_le_bytes([
        front[0], front[1], front[2], front[3], front[4], front[5], front[6], front[7],
    ]);
    Some((number, rest))
}

/// Reads a length and as many bytes. Also returns the bytes after them.
#[tactic(auto, unfolding(crate::specs::Reading::bytes_at))]
pub fn take_bytes(bytes: &[u8]) -> Option<(&[u8], &[u8])>
    ensures { Shows (λ x. (x.0.now, x.1.now)) result (bytes_at bytes.now) }
{
    let (len, rest) = take_u32(bytes)?;
    let len = len as usize;
    if rest.len() < len {
        return None;
    }
    Some(rest.split_at(len))
}

/// Reads a length and a text in UTF-8. Also returns the bytes after it.
#[tactic(auto, using(crate::proofs::Parts::text_front, crate::proofs::Parts::text_not), unfolding(crate::specs::Reading::text_at))]
pub fn take_text(bytes: &[u8]) -> Option<(&str, &[u8])>
    ensures { Shows (λ x. (x.0.now, x.1.now)) result (text_at bytes.now) }
{
    let (text, rest) = take_bytes(bytes)?;
    match str::from_utf8(text) {
        Ok(text) => Some((text, rest)),
        Err(_) => None,
    }
}

/// Reads a boolean of one byte. Also returns the bytes after it.
pub fn take_bool(bytes: &[u8]) -> Option<(bool, &[u8])>
    ensures { Shows (λ x. (x.0, x.1.now)) result (bool_at bytes.now) }
{
    match bytes {
        [0, rest @ ..] => Some((false, rest)),
        [1, rest @ ..] => Some((true, rest)),
        _ => None,
    }
}

/// Reads a kind of one byte. Also returns the bytes after it.
pub fn take_kind(bytes: &[u8]) -> Option<(Kind, &[u8])>
    ensures { Shows (λ x. (x.0, x.1.now)) result (kind_at bytes.now) }
{
    match bytes {
        [0, rest @ ..] => Some((Kind::Facts, rest)),
        [1, rest @ ..] => Some((Kind::Catalog, rest)),
        [2, rest @ ..] => Some((Kind::Report, rest)),
        [3, rest @ ..] => Some((Kind::Deactivate, rest)),
        [4, rest @ ..] => Some((Kind::Expiration, rest)),
        _ => None,
    }
}

/// Reads an optional index of four bytes. Also returns the bytes after it.
#[tactic(auto, unfolding(crate::specs::Reading::optional_at))]
pub fn take_index(bytes: &[u8]) -> Option<(Option<u32>, &[u8])>
    ensures { Shows (λ x. (x.0, x.1.now)) result (optional_at (number_at w32) bytes.now) }
{
    match bytes {
        [0, rest @ ..] => Some((None, rest)),
        [1, rest @ ..] => {
            let (number, rest) = take_u32(rest)?;
            Some((Some(number), rest))
        }
        _ => None,
    }
}
