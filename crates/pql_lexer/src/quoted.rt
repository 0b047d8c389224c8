//! Reads texts in quotes.
ghost use Rattle.std.specs.Prelude.{◌≡◌, ◌<◌, ◌≤◌, ◌++◌, length, drop, IfOk, IfSome, OnOk, [], ◌∷◌, false, true, option_map};
ghost use Rattle.pql_lexer.specs.Fronts as spec;
ghost use Rattle.pql_lexer.specs.Next.{BeginsWith};
ghost use Rattle.pql_lexer.specs.Fronts.{held};

use crate::word::place_of;
use pql_spec::Token;
use pql_spec::json_tree::Text;
use pql_spec::query_spec::{Literal, Scalar};
use std::alloc::{AllocError, Global};
use std::str;

// Appends what a backslash and this byte stand for.
fn push_escape(held: &mut Vec<u8>, quote: u8, byte: u8) -> Result<(), AllocError>
    ensures { OnOk result (held.new.items ≡ held.old.items ++ spec.escape_bytes quote byte) }
{
    if byte != quote && byte != b'\\' {
        held.push(b'\\')?;
    }
    held.push(byte)?;
    Ok(())
}

// Reads the text after its opening quote. Returns its content, and its length with the closing quote; None if the text isn't
// closed.
fn text_front(
    alloc: Global,
    quote: u8,
    bytes: &[u8],
) -> Result<Option<(Vec<u8>, usize)>, AllocError>
    ensures value { IfOk result (λ r. option_map held r ≡ spec.text_front quote false [] 0 bytes.now) }
    ensures within { IfOk result (λ r. IfSome r (λ p. p.1 ≤ length bytes.now)) }
{
    let mut held = Vec::new(alloc);
    let mut behind = false;
    let mut read = 0;
    'bytes: for byte in bytes {
        read += 1;
        if behind {
            push_escape(&mut held, quote, *byte)?;
            behind = false;
        } else if *byte == quote {
            return Ok(Some((held, read)));
        } else if *byte == b'\\' {
            behind = true;
        } else {
            held.push(*byte)?;
        }
    }
    Ok(None)
}

/// The text that the bytes begin with, after its opening quote, and its length.
pub(crate) fn quoted(
    alloc: Global,
    quote: u8,
    bytes: &[u8],
    number: usize,
) -> Result<Option<(Token, usize)>, AllocError>
    requires { spec.is_quote quote ≡ true }
    ensures { IfOk result (BeginsWith number (quote ∷ bytes.now)) }
{
    let found = text_front(alloc, quote, bytes)?;
    match found {
        None => Ok(None),
        Some((held, length)) => {
            let place = place_of(alloc, number)?;
            match str::from_utf8(held.as_slice()) {
                Err(_) => Ok(None),
                Ok(text) => {
                    let value = Scalar::Text(Text::from_str(alloc, text)?);
                    Ok(Some((Token::Literal(Literal { value, place }), length + 1)))
                }
            }
        }
    }
}
