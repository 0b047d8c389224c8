//! Reads words: names and keywords.
ghost use Rattle.std.specs.Prelude.{◌≡◌, ◌+◌, ◌≤◌, length, take, IfOk, [], ◌∷◌, true};
ghost use Rattle.std.specs.Char.{is_ascii_lowercase};
ghost use Rattle.pql_lexer.specs.Fronts as spec;
ghost use Rattle.pql_lexer.specs.Next.{BeginsWith};

use pql_spec::json_tree::Text;
use pql_spec::query_spec::Place;
use pql_spec::{Token, word_token};
use std::alloc::{AllocError, Global};

fn is_word_byte(byte: u8) -> bool
    ensures { result ≡ spec.is_word_byte byte }
{
    byte.is_ascii_lowercase() || byte.is_ascii_digit() || byte == b'_'
}

// The length of the longest word that the bytes begin with.
fn word_length(bytes: &[u8]) -> usize
    ensures value { result ≡ spec.word_length bytes.now }
    ensures within { result ≤ length bytes.now }
{
    let mut length = 0;
    for byte in bytes {
        if !is_word_byte(*byte) {
            return length;
        }
        length += 1;
    }
    length
}

/// The place of the token with this number.
pub(crate) fn place_of(alloc: Global, number: usize) -> Result<Place, AllocError>
    ensures { IfOk result (λ place. place ≡ number ∷ []) }
{
    Place::new(alloc).within(alloc, number)
}

/// The first `end` bytes.
pub(crate) fn front(bytes: &[u8], end: usize) -> &[u8]
    requires { end ≤ length bytes.now }
    ensures { result.now ≡ take end bytes.now }
{
    &bytes[..end]
}

/// The word that the bytes begin with, and its length.
pub(crate) fn word(
    alloc: Global,
    bytes: &[u8],
    number: usize,
) -> Result<Option<(Token, usize)>, AllocError>
    requires { spec.begins is_ascii_lowercase bytes.now ≡ true }
    ensures { IfOk result (BeginsWith number bytes.now) }
{
    let length = word_length(bytes);
    let text = Text::from_bytes(alloc, front(bytes, length))?;
    let place = place_of(alloc, number)?;
    let token = word_token(text, place);
    Ok(Some((token, length)))
}
