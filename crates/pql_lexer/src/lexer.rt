//! Finds the token that bytes begin with, by its first byte.
ghost use Rattle.std.specs.Prelude.{IfOk};
ghost use Rattle.pql_lexer.specs.Next.{BeginsWith};

use crate::mark::mark;
use crate::number::number;
use crate::quoted::quoted;
use crate::word::word;
use pql_spec::Token;
use std::alloc::{AllocError, Global};

/// The longest token that the bytes begin with, as token number `number_of_token`, and its length in bytes. None if they begin
/// with no token; white space isn't skipped.
pub fn next_token(
    alloc: Global,
    bytes: &[u8],
    number_of_token: usize,
) -> Result<Option<(Token, usize)>, AllocError>
    ensures { IfOk result (BeginsWith number_of_token bytes.now) }
{
    match bytes {
        [] => Ok(None),
        [first, rest @ ..] => {
            if first.is_ascii_lowercase() {
                word(alloc, bytes, number_of_token)
            } else if first.is_ascii_digit() || *first == b'-' {
                number(alloc, bytes, number_of_token)
            } else if *first == b'\'' || *first == b'"' {
                quoted(alloc, *first, rest, number_of_token)
            } else {
                mark(alloc, bytes, number_of_token)
            }
        }
    }
}
