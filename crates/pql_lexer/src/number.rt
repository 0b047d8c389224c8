//! Reads numbers.
ghost use Rattle.std.specs.Prelude.{◌≡◌, ◌<◌, ◌≤◌, length, IfOk, IfSome, [], ◌∷◌, None, true};
ghost use Rattle.pql_spec.specs.json_tree.declared.number.NumberState.TheVariants.{Start};
ghost use Rattle.pql_spec.specs.Tokens as spell;
ghost use Rattle.pql_spec.specs.query_spec.declared.parts.Scalar.TheVariants as scalar;
ghost use Rattle.pql_lexer.specs.Fronts as spec;
ghost use Rattle.pql_lexer.specs.Next.{BeginsWith};

use crate::word::{front, place_of};
use pql_spec::Token;
use pql_spec::json_tree::{Number, NumberState, Text};
use pql_spec::query_spec::{Literal, Scalar};
use std::alloc::{AllocError, Global};

// The length of the longest number that the bytes begin with. The code looks at most two bytes past it.
fn number_length(bytes: &[u8]) -> Option<usize>
    ensures value { result ≡ spec.number_length Start 0 None bytes.now }
    ensures within { IfSome result (λ length_found. length_found ≤ length bytes.now) }
{
    let mut state = NumberState::Start;
    let mut found = None;
    let mut read = 0;
    'bytes: for byte in bytes {
        match state.step(*byte) {
            None => return found,
            Some(next) => {
                state = next;
                read += 1;
                if state.may_end() {
                    found = Some(read);
                }
            }
        }
    }
    found
}

/// The number that the bytes begin with, and its length.
pub(crate) fn number(
    alloc: Global,
    bytes: &[u8],
    number: usize,
) -> Result<Option<(Token, usize)>, AllocError>
    requires { spec.begins spec.is_numeric bytes.now ≡ true }
    ensures { IfOk result (BeginsWith number bytes.now) }
{
    match number_length(bytes) {
        None => Ok(None),
        Some(length) => {
            let text = Text::from_bytes(alloc, front(bytes, length))?;
            let place = place_of(alloc, number)?;
            let value = Scalar::Num(Number::of(text));
            Ok(Some((Token::Literal(Literal { value, place }), length)))
        }
    }
}
