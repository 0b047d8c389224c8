//! Large payloads, for which there is memory.
use crate::wire_commands::join;
use crate::wire_taken::{Wanted, asks_for};
use crate::wrong::{Wrong, holds};
use command_decode::fleet_rows::Kind;
use itoa::Buffer;
use std::alloc::{AllocError, Global};

const FRONT: &str =
    r#"{"certname":"a","version":"1","producer_timestamp":"2024-05-01T10:00:00Z","edges":[],"values":{"#;

// Facts of which one has a text of so many letters.
fn long_facts(alloc: Global, letters: usize) -> Result<Vec<u8>, AllocError> {
    let mut payload = join(alloc, &[FRONT, r#""x":""#])?;
    let text = vec![in alloc; b'x'; letters]?;
    payload.extend_from_slice(text.as_slice())?;
    payload.extend_from_slice(b"\"}}")?;
    Ok(payload)
}

fn are_facts(alloc: Global, payload: &[u8], count: usize) -> Result<bool, Wrong> {
    asks_for(alloc, Kind::Facts, payload, Wanted::Count(count))
}

#[test]
fn facts_of_16_mebibytes_are_taken(rt: HostRuntime) -> Result<(), Wrong> {
    let payload = long_facts(rt.alloc(), 16_777_000)?;
    holds(are_facts(rt.alloc(), payload.as_slice(), 1)?, 0)
}

// What stands before a number and behind it, for each number below this.
fn add_numbered(
    payload: &mut Vec<u8>,
    count: u32,
    before: &[u8],
    behind: &[u8],
) -> Result<(), AllocError> {
    let mut digits = Buffer::new();
    for number in 0..count {
        payload.extend_from_slice(before)?;
        payload.extend_from_slice(digits.format(number).as_bytes())?;
        payload.extend_from_slice(behind)?;
    }
    Ok(())
}

fn many_facts(alloc: Global, count: u32) -> Result<Vec<u8>, AllocError> {
    let mut payload = join(alloc, &[FRONT, r#""x":1"#])?;
    add_numbered(&mut payload, count, b",\"", b"\":[]")?;
    payload.extend_from_slice(b"}}")?;
    Ok(payload)
}

#[test]
fn a_hundred_thousand_facts_are_taken(rt: HostRuntime) -> Result<(), Wrong> {
    let payload = many_facts(rt.alloc(), 100_000)?;
    holds(are_facts(rt.alloc(), payload.as_slice(), 100_001)?, 0)
}

fn many_resources(alloc: Global, count: u32) -> Result<Vec<u8>, AllocError> {
    let front = r#"},"resources":[{"type":"T","title":"x"}"#;
    let before = br#",{"type":"T","tags":["b","a","b"],"title":""#;
    let mut payload = join(alloc, &[FRONT, front])?;
    add_numbered(&mut payload, count, before, b"\"}")?;
    payload.extend_from_slice(b"]}")?;
    Ok(payload)
}

fn are_resources(alloc: Global, payload: &[u8], count: usize) -> Result<bool, Wrong> {
    asks_for(alloc, Kind::Catalog, payload, Wanted::Count(count))
}

#[test]
fn a_catalog_of_twenty_thousand_resources_is_taken(rt: HostRuntime) -> Result<(), Wrong> {
    let payload = many_resources(rt.alloc(), 20_000)?;
    holds(are_resources(rt.alloc(), payload.as_slice(), 20_001)?, 0)
}
