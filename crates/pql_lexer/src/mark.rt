//! Reads marks, such as `(` or `<=`.
ghost use Rattle.std.specs.Prelude.{◌≡◌, ◌<◌, ◌≤◌, length, IfOk, [], ◌∷◌, true};
ghost use Rattle.pql_spec.specs.Tokens as spell;
ghost use Rattle.pql_lexer.specs.Fronts as spec;
ghost use Rattle.pql_lexer.specs.Next.{BeginsWith};

use crate::word::{front, place_of};
use pql_spec::Token;
use pql_spec::query_spec::{Op, Place};
use std::alloc::{AllocError, Global};
use std::str;

fn mark_length(bytes: &[u8]) -> usize
    ensures { result ≡ spec.mark_length bytes.now }
{
    match bytes {
        [first, second, ..] => {
            if *second == b'=' && (*first == b'!' || *first == b'<' || *first == b'>') {
                2
            } else {
                1
            }
        }
        _ => 1,
    }
}

// The token of a mark. An opening bracket keeps its place.
#[tactic(auto, unfolding(pql_spec::specs::Tokens::mark_token))]
fn mark_token(mark: &str, place: Place) -> Option<Token>
    ensures { result ≡ spell.mark_token mark.now place }
{
    if mark == "[" {
        Some(Token::OpenBracket(place))
    } else if mark == "]" {
        Some(Token::CloseBracket)
    } else if mark == "{" {
        Some(Token::OpenBrace)
    } else if mark == "}" {
        Some(Token::CloseBrace)
    } else if mark == "(" {
        Some(Token::OpenParen)
    } else if mark == ")" {
        Some(Token::CloseParen)
    } else if mark == "," {
        Some(Token::Comma)
    } else if mark == "!" {
        Some(Token::Bang)
    } else if mark == "~" {
        Some(Token::Tilde)
    } else if mark == "=" {
        Some(Token::Comparison(Op::Equal))
    } else if mark == "!=" {
        Some(Token::Differs)
    } else if mark == "<" {
        Some(Token::Comparison(Op::Less))
    } else if mark == "<=" {
        Some(Token::Comparison(Op::AtMost))
    } else if mark == ">" {
        Some(Token::Comparison(Op::More))
    } else if mark == ">=" {
        Some(Token::Comparison(Op::AtLeast))
    } else {
        None
    }
}

/// The mark that the bytes begin with, and its length.
pub(crate) fn mark(
    alloc: Global,
    bytes: &[u8],
    number: usize,
) -> Result<Option<(Token, usize)>, AllocError>
    requires { spec.begins spec.is_other bytes.now ≡ true }
    ensures { IfOk result (BeginsWith number bytes.now) }
{
    let length = mark_length(bytes);
    let place = place_of(alloc, number)?;
    match str::from_utf8(front(bytes, length)) {
        Err(_) => Ok(None),
        Ok(mark) => match mark_token(mark, place) {
            None => Ok(None),
            Some(token) => Ok(Some((token, length))),
        },
    }
}
