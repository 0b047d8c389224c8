//! Digests from FIPS 180-4's examples, columns by name and place, and what else `fleet_rows` has.
use crate::wrong::{Wrong, holds};
use command_decode::fleet_rows::{Column, Entity, Ttls, sha1_hex};
use std::alloc::{AllocError, Global};

fn is_digest(alloc: Global, bytes: &[u8], digits: &str) -> Result<bool, AllocError> {
    Ok(sha1_hex(alloc, bytes)?.as_str() == digits)
}

static DIGESTS: [(&[u8], &str); 2] = [
    (b"abc", "a9993e364706816aba3e25717850c26c9cd0d89d"),
    (b"", "da39a3ee5e6b4b0d3255bfef95601890afd80709"),
];

fn are_digests(alloc: Global) -> Result<(), Wrong> {
    for (at, (bytes, digits)) in DIGESTS.iter().enumerate() {
        holds(is_digest(alloc, bytes, digits)?, at)?;
    }
    let many = vec![in alloc; b'a'; 1_000_000]?;
    let digits = "34aa973cd4c4daa4f61eeb2bdbad27316534016f";
    holds(is_digest(alloc, many.as_slice(), digits)?, 2)
}

#[test]
fn digests_are_those_of_the_standard(rt: HostRuntime) -> Result<(), Wrong> {
    are_digests(rt.alloc())
}

// Each entity with the names of its columns in order.
static ENTITIES: [(Entity, &[&str]); 11] = [
    (
        Entity::Nodes,
        &[
            "catalog_environment",
            "catalog_timestamp",
            "certname",
            "deactivated",
            "expired",
            "facts_environment",
            "facts_timestamp",
            "latest_report_hash",
            "latest_report_noop",
            "latest_report_status",
            "report_environment",
            "report_timestamp",
        ],
    ),
    (
        Entity::Factsets,
        &[
            "certname",
            "environment",
            "facts",
            "hash",
            "producer",
            "producer_timestamp",
        ],
    ),
    (Entity::Facts, &["certname", "environment", "name", "value"]),
    (
        Entity::Catalogs,
        &[
            "catalog_uuid",
            "certname",
            "code_id",
            "environment",
            "hash",
            "job_id",
            "producer",
            "producer_timestamp",
            "transaction_uuid",
            "version",
        ],
    ),
    (
        Entity::Resources,
        &[
            "certname",
            "environment",
            "exported",
            "file",
            "line",
            "parameters",
            "resource",
            "tags",
            "title",
            "type",
        ],
    ),
    (
        Entity::Edges,
        &[
            "certname",
            "relationship",
            "source_title",
            "source_type",
            "target_title",
            "target_type",
        ],
    ),
    (
        Entity::Reports,
        &[
            "certname",
            "configuration_version",
            "end_time",
            "environment",
            "hash",
            "logs",
            "metrics",
            "noop",
            "producer",
            "producer_timestamp",
            "puppet_version",
            "receive_time",
            "report_format",
            "resources",
            "start_time",
            "status",
            "transaction_uuid",
        ],
    ),
    (
        Entity::FactContents,
        &["certname", "environment", "name", "path", "value"],
    ),
    (
        Entity::Inventory,
        &["certname", "environment", "facts", "timestamp", "trusted"],
    ),
    (
        Entity::Events,
        &[
            "certname",
            "message",
            "property",
            "report",
            "resource_title",
            "resource_type",
            "status",
            "timestamp",
        ],
    ),
    (
        Entity::EventCounts,
        &[
            "certname",
            "failures",
            "noops",
            "others",
            "skips",
            "successes",
        ],
    ),
];

fn stands_at(entity: Entity, column: Column, place: usize) -> bool {
    entity.place(column) == Some(place)
}

fn is_named(column: Column, name: &str) -> bool {
    Column::from_name(name) == Some(column)
}

// Whether the entity has the columns of these names, each at its place.
fn are_columns(entity: Entity, names: &[&str]) -> bool {
    let columns = entity.columns();
    if columns.len() != names.len() {
        return false;
    }
    for (place, column) in columns.iter().enumerate() {
        if !stands_at(entity, *column, place) || !is_named(*column, names[place]) {
            return false;
        }
    }
    true
}

fn each_entity() -> Result<(), Wrong> {
    for (at, (entity, names)) in ENTITIES.iter().enumerate() {
        holds(are_columns(*entity, names), at)?;
    }
    Ok(())
}

#[test]
fn each_column_has_a_name_and_a_place() -> Result<(), Wrong> {
    each_entity()?;
    holds(Entity::Facts.place(Column::Hash).is_none(), 11)?;
    holds(Column::from_name("Certname").is_none(), 12)
}

fn are_default(ttls: &Ttls) -> bool {
    ttls.node_days == 7
        && ttls.purge_days == 14
        && ttls.report_days == 14
        && ttls.report_count.is_none()
}

#[test]
fn default_lifetimes_are_a_week_and_two_of_a_fortnight() -> Result<(), Wrong> {
    holds(are_default(&Ttls::default_lifetimes()), 0)
}
