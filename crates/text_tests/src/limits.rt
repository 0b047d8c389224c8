//! The largest text that is taken in one piece: 16 MiB, 127 levels and 100,000 members.
use crate::reading::stop_of;
use crate::wrong::{Wrong, holds};
use json_read::json_tree::Json;
use json_read::{peek, read};
use std::alloc::{AllocError, Global};

const SIZE: usize = 16_777_216;

const FRONT: &[u8] =
    b"{\"certname\":\"a\",\"producer_timestamp\":\"1970-01-01T00:00:01Z\",\"deep\":";

fn extend(text: &mut Vec<u8>, bytes: &[u8], count: usize) -> Result<(), AllocError> {
    for _ in 0..count {
        text.extend_from_slice(bytes)?;
    }
    Ok(())
}

fn add_members(text: &mut Vec<u8>, count: u32) -> Result<(), AllocError> {
    for at in 0..count {
        text.extend_from_slice(b",\"k")?;
        let mut left = at;
        for _ in 0..5 {
            text.push(b'0' + (left % 10) as u8)?;
            left /= 10;
        }
        text.extend_from_slice(b"\":0")?;
    }
    Ok(())
}

// A member that fills the text up to its size, and the last brace.
fn add_pad(text: &mut Vec<u8>) -> Result<(), AllocError> {
    text.extend_from_slice(b",\"pad\":\"")?;
    let left = SIZE.saturating_sub(text.len()).saturating_sub(2);
    extend(text, b"x", left)?;
    text.extend_from_slice(b"\"}")
}

fn largest(alloc: Global) -> Result<Vec<u8>, AllocError> {
    let mut text = Vec::from_slice(alloc, FRONT)?;
    extend(&mut text, b"[", 126)?;
    extend(&mut text, b"]", 126)?;
    add_members(&mut text, 99_996)?;
    add_pad(&mut text)?;
    Ok(text)
}

// How many members the object has that is read.
fn members_in(alloc: Global, text: &[u8]) -> Option<usize> {
    match read(alloc, text) {
        Ok(Json::Map(members)) => Some(members.len()),
        _ => None,
    }
}

fn is_known(alloc: Global, text: &[u8]) -> Result<bool, AllocError> {
    Ok(peek(alloc, text)?.is_some())
}

#[test]
fn the_largest_text_is_read_and_known(rt: HostRuntime) -> Result<(), Wrong> {
    let alloc = rt.alloc();
    let mut text = largest(alloc)?;
    holds(text.len() == SIZE, 0)?;
    holds(members_in(alloc, text.as_slice()) == Some(100_000), 1)?;
    holds(is_known(alloc, text.as_slice())?, 2)?;
    // The last brace is missing.
    text.truncate(SIZE - 1);
    holds(stop_of(alloc, text.as_slice()) == Some(SIZE - 1), 3)?;
    holds(!is_known(alloc, text.as_slice())?, 4)
}
