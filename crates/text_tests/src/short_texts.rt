//! All short texts, by a plain slow reader that knows nothing of the machine: it cuts a text into tokens, and then
//! puts one value for an empty array, an array of one value, and so on, until nothing more can be put.
use crate::wrong::{Wrong, holds};
use json_read::read;
use std::alloc::{AllocError, Global};

// A dozen bytes, of which every kind of token but literals and fractions is made.
const BYTES: [u8; 12] = *b"[]{},:\"\\01- ";

fn is_value(token: u8) -> bool {
    token == b's' || token == b'n' || token == b'v'
}

// How many tokens behind the first are dropped, and whether the first becomes a value.
fn put_at(tokens: &[u8]) -> Option<(usize, bool)> {
    match tokens {
        [b'[', b']', ..] => Some((1, true)),
        [b'{', b'}', ..] => Some((1, true)),
        [b'[', item, b']', ..] if is_value(*item) => Some((2, true)),
        [b'[', first, b',', second, ..] if is_value(*first) && is_value(*second) => Some((
            2, false,
        )),
        [b'{', b's', b':', value, b'}', ..] if is_value(*value) => Some((4, true)),
        [b'{', b's', b':', value, b',', b's', b':', ..] if is_value(*value) => Some((4, false)),
        _ => None,
    }
}

// The tokens with one value put, or None where none can be.
fn put(alloc: Global, tokens: &[u8]) -> Result<Option<Vec<u8>>, AllocError> {
    let mut before = Vec::new(alloc);
    let mut rest = tokens;
    while let [first, behind @ ..] = rest {
        if let Some((dropped, is_whole)) = put_at(rest) {
            before.push(if is_whole { b'v' } else { *first })?;
            if dropped <= behind.len() {
                before.extend_from_slice(&behind[dropped..])?;
            }
            return Ok(Some(before));
        }
        before.push(*first)?;
        rest = behind;
    }
    Ok(None)
}

// The bytes behind a string whose quote was read, or None where it doesn't end.
fn behind_string(text: &[u8]) -> Option<&[u8]> {
    let mut rest = text;
    loop {
        match rest {
            [b'"', behind @ ..] => return Some(behind),
            [b'\\', b'"', behind @ ..] => rest = behind,
            [b'\\', b'\\', behind @ ..] => rest = behind,
            [b'\\', ..] => return None,
            [_, behind @ ..] => rest = behind,
            [] => return None,
        }
    }
}

fn behind_digits(text: &[u8]) -> &[u8] {
    let mut rest = text;
    while let [b'0' | b'1', behind @ ..] = rest {
        rest = behind;
    }
    rest
}

// One token of a text that isn't empty, and what is behind it; 0 for white space.
fn token(text: &[u8]) -> Option<(u8, &[u8])> {
    match text {
        [b' ', behind @ ..] => Some((0, behind)),
        [b'"', behind @ ..] => match behind_string(behind) {
            Some(behind) => Some((b's', behind)),
            None => None,
        },
        [b'0', behind @ ..] => Some((b'n', behind)),
        [b'1', behind @ ..] => Some((b'n', behind_digits(behind))),
        [b'-', b'0', behind @ ..] => Some((b'n', behind)),
        [b'-', b'1', behind @ ..] => Some((b'n', behind_digits(behind))),
        [b'-' | b'\\', ..] => None,
        [mark, behind @ ..] => Some((*mark, behind)),
        [] => None,
    }
}

fn is_text(alloc: Global, text: &[u8]) -> Result<bool, AllocError> {
    let mut tokens = Vec::new(alloc);
    let mut rest = text;
    for _ in 0..text.len() {
        if !rest.is_empty() {
            let Some((mark, behind)) = token(rest) else {
                return Ok(false);
            };
            if mark != 0 {
                tokens.push(mark)?;
            }
            rest = behind;
        }
    }
    for _ in 0..text.len() {
        if let Some(fewer) = put(alloc, tokens.as_slice())? {
            tokens = fewer;
        }
    }
    match tokens.as_slice() {
        [only] => Ok(is_value(*only)),
        _ => Ok(false),
    }
}

// The text of so many bytes that a number stands for.
fn text_at(alloc: Global, code: u32, size: usize) -> Result<Vec<u8>, AllocError> {
    let mut left = code;
    let mut text = Vec::new(alloc);
    for _ in 0..size {
        text.push(BYTES[(left % 12) as usize])?;
        left /= 12;
    }
    Ok(text)
}

fn reads(alloc: Global, text: &[u8]) -> bool {
    read(alloc, text).is_ok()
}

// Whether the text is taken. None where the slow reader takes it and the other doesn't, or the other way round.
fn is_taken(alloc: Global, code: u32, size: usize) -> Result<Option<bool>, AllocError> {
    let text = text_at(alloc, code, size)?;
    let wanted = is_text(alloc, text.as_slice())?;
    let is = reads(alloc, text.as_slice());
    Ok((is == wanted).then_some(is))
}

// How many of the texts of so many bytes are taken.
fn taken_of(alloc: Global, size: usize, count: u32) -> Result<u32, Wrong> {
    let mut taken = 0u32;
    for code in 0..count {
        match is_taken(alloc, code, size)? {
            Some(true) => taken = taken.saturating_add(1),
            Some(false) => {}
            None => return Err(Wrong::Row(code as usize)),
        }
    }
    Ok(taken)
}

static SIZES: [(usize, u32); 6] = [
    (0, 1),
    (1, 12),
    (2, 144),
    (3, 1728),
    (4, 20_736),
    (5, 248_832),
];

fn each_size(alloc: Global) -> Result<(), Wrong> {
    let mut taken = 0u32;
    for (size, count) in SIZES.iter() {
        taken = taken.saturating_add(taken_of(alloc, *size, *count)?);
    }
    holds(taken > 1000, 6)
}

#[test]
fn short_texts_are_taken_exactly_where_a_slow_reader_takes_them(
    rt: HostRuntime,
) -> Result<(), Wrong> {
    each_size(rt.alloc())
}
