//! Payloads that lack a field, and what is refused before the fields are looked at.
use crate::wire_commands::{is_answered, payloads_are_answered};
use crate::wrong::{Wrong, holds};
use command_decode::fleet_rows::Kind;
use std::alloc::Global;

const LACKING: &[(Kind, &str, &str)] = &[
    (Kind::Facts, r#"{"values":{}}"#, "missing certname"),
    (Kind::Facts, r#"{"certname":"a"}"#, "missing values"),
    (
        Kind::Facts,
        r#"{"certname":"a","values":{}}"#,
        "missing producer_timestamp",
    ),
    (
        Kind::Facts,
        r#"{"producer_timestamp":"2024-05-01T10:00:00Z","values":{},"certname":"a"}"#,
        "taken",
    ),
    (Kind::Catalog, r#"{"version":"1"}"#, "missing certname"),
    (Kind::Catalog, r#"{"certname":"a"}"#, "missing version"),
    (
        Kind::Catalog,
        r#"{"certname":"a","version":"1"}"#,
        "missing producer_timestamp",
    ),
    (
        Kind::Catalog,
        r#"{"certname":"a","version":"1","producer_timestamp":"2024-05-01T10:00:00Z","resources":[]}"#,
        "missing edges",
    ),
    (
        Kind::Catalog,
        r#"{"certname":"a","version":"1","producer_timestamp":"2024-05-01T10:00:00Z","edges":[]}"#,
        "missing resources",
    ),
    (Kind::Report, "{}", "missing certname"),
    (
        Kind::Report,
        r#"{"certname":"a"}"#,
        "missing producer_timestamp",
    ),
    (
        Kind::Report,
        r#"{"certname":"a","producer_timestamp":"2024-05-01T10:00:00Z"}"#,
        "taken",
    ),
    (Kind::Deactivate, "{}", "missing certname"),
    (
        Kind::Deactivate,
        r#"{"certname":"a"}"#,
        "missing producer_timestamp",
    ),
    (
        Kind::Expiration,
        r#"{"certname":"a","producer_timestamp":"2024-05-01T10:00:00Z"}"#,
        "missing expire",
    ),
];

#[test]
fn a_required_field_that_is_absent_is_missing(rt: HostRuntime) -> Result<(), Wrong> {
    payloads_are_answered(rt.alloc(), LACKING)
}

const NO_OBJECTS: &[(Kind, &str, &str)] = &[
    (Kind::Facts, "", "not json at 0"),
    (Kind::Catalog, r#"{"certname":"a""#, "not json at 15"),
    (Kind::Report, r#"{"certname":"a"} {"#, "not json at 17"),
    (Kind::Deactivate, "[1]", "not object"),
    (Kind::Expiration, " null ", "not object"),
    (Kind::Facts, r#""{}""#, "not object"),
];

#[test]
fn a_payload_is_to_be_the_text_of_an_object(rt: HostRuntime) -> Result<(), Wrong> {
    payloads_are_answered(rt.alloc(), NO_OBJECTS)
}

const OPEN: [u8; 128] = [b'['; 128];

#[test]
fn the_128th_level_is_too_deep(rt: HostRuntime) -> Result<(), Wrong> {
    let deep = is_answered(rt.alloc(), Kind::Facts, 5, &OPEN, "too deep at 127")?;
    holds(deep, 0)?;
    let open = is_answered(rt.alloc(), Kind::Facts, 5, &OPEN[..127], "not json at 127")?;
    holds(open, 1)
}

static OTHER_VERSIONS: [(Kind, u32); 6] = [
    (Kind::Facts, 4),
    (Kind::Facts, 6),
    (Kind::Catalog, 8),
    (Kind::Report, 5),
    (Kind::Deactivate, 1),
    (Kind::Expiration, 0),
];

fn are_refused(alloc: Global) -> Result<(), Wrong> {
    for (at, (kind, version)) in OTHER_VERSIONS.iter().enumerate() {
        let is_refused = is_answered(alloc, *kind, *version, b"\xff", "bad version")?;
        holds(is_refused, at)?;
    }
    Ok(())
}

#[test]
fn another_version_is_refused_whatever_the_payload(rt: HostRuntime) -> Result<(), Wrong> {
    are_refused(rt.alloc())
}
