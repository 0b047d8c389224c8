//! Commands and their answers in words.
use crate::wrong::{Wrong, holds};
use command_decode::fleet_rows::{Change, Command, Kind, Refusal};
use command_decode::json_tree::Bytes;
use command_decode::stamp_time::Moment;
use command_decode::wire_fields::refusal_text;
use command_decode::{DecodeFault, decode};
use std::alloc::{AllocError, Global};

/// The version that is taken.
pub(crate) fn version(kind: Kind) -> u32 {
    match kind {
        Kind::Facts => 5,
        Kind::Catalog => 9,
        Kind::Report => 8,
        Kind::Deactivate => 3,
        Kind::Expiration => 1,
    }
}

fn decoded(
    alloc: Global,
    kind: Kind,
    version: u32,
    payload: &[u8],
) -> Result<Result<Change, DecodeFault>, Wrong> {
    if payload.len() >= 4_294_967_296 {
        return Err(Wrong::OtherChange);
    }
    let command = Command {
        kind,
        version,
        received: Moment::from_nanosecond(0),
        payload: Bytes::from_slice(alloc, payload)?,
    };
    Ok(decode(alloc, &command))
}

/// The change that a payload of the kind asks for.
pub(crate) fn change(alloc: Global, kind: Kind, payload: &[u8]) -> Result<Change, Wrong> {
    match decoded(alloc, kind, version(kind), payload)? {
        Ok(change) => Ok(change),
        Err(_) => Err(Wrong::OtherChange),
    }
}

fn is_text(alloc: Global, refusal: Refusal, wanted: &str) -> Result<bool, AllocError> {
    Ok(refusal_text(alloc, refusal)?.as_slice() == wanted.as_bytes())
}

/// Whether it is answered so: by a refusal that is printed so, or that the command is taken.
pub(crate) fn is_answered(
    alloc: Global,
    kind: Kind,
    version: u32,
    payload: &[u8],
    wanted: &str,
) -> Result<bool, Wrong> {
    match decoded(alloc, kind, version, payload)? {
        Ok(change) => {
            drop(change);
            Ok(wanted == "taken")
        }
        Err(DecodeFault::Refused(refusal)) => Ok(is_text(alloc, refusal, wanted)?),
        Err(DecodeFault::Memory) => Err(Wrong::Memory),
    }
}

/// The texts one after the other.
pub(crate) fn join(alloc: Global, texts: &[&str]) -> Result<Vec<u8>, AllocError> {
    let mut joined = Vec::new(alloc);
    for text in texts {
        joined.extend_from_slice(text.as_bytes())?;
    }
    Ok(joined)
}

// The fields of a payload that is taken.
fn usual(kind: Kind) -> &'static str {
    match kind {
        Kind::Facts => {
            r#""certname":"a","environment":"e","values":{},"producer_timestamp":"2024-05-01T12:00:00+02:00","producer":"p""#
        }
        Kind::Catalog => {
            r#""certname":"a","version":"1","producer_timestamp":"2024-05-01T10:00:00Z","edges":[],"resources":[]"#
        }
        Kind::Report | Kind::Deactivate => {
            r#""certname":"a","producer_timestamp":"2024-05-01T10:00:00Z""#
        }
        Kind::Expiration => {
            r#""certname":"a","producer_timestamp":"2024-05-01T10:00:00Z","expire":{"facts":true}"#
        }
    }
}

/// A kind of command, a payload of it or some fields of one, and the answer.
type Case = (Kind, &'static str, &'static str);

fn is_case(alloc: Global, kind: Kind, payload: &[u8], wanted: &str) -> Result<bool, Wrong> {
    is_answered(alloc, kind, version(kind), payload, wanted)
}

/// Whether each payload is answered so; a payload is one that is taken, with some fields in place of its own.
pub(crate) fn are_answered(alloc: Global, cases: &[Case]) -> Result<(), Wrong> {
    for (at, (kind, fields, wanted)) in cases.iter().enumerate() {
        let payload = join(alloc, &["{", usual(*kind), ",", fields, "}"])?;
        holds(is_case(alloc, *kind, payload.as_slice(), wanted)?, at)?;
    }
    Ok(())
}

/// Whether each payload is answered so.
pub(crate) fn payloads_are_answered(alloc: Global, cases: &[Case]) -> Result<(), Wrong> {
    for (at, (kind, payload, wanted)) in cases.iter().enumerate() {
        holds(is_case(alloc, *kind, payload.as_bytes(), wanted)?, at)?;
    }
    Ok(())
}
