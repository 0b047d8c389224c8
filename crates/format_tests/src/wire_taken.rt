//! Payloads that Puppet sent, and what is kept of a payload.
use crate::real_payloads;
use crate::wire_commands::change;
use crate::wrong::{Wrong, holds};
use command_decode::fleet_rows::{
    CatalogChange, Change, DeactivateChange, Edge, ExpirationChange, FactsChange, Kind,
    Relationship, ReportChange, Resource,
};
use command_decode::json_tree::{Items, Json, Text, write_compact};
use std::alloc::{AllocError, Global};

/// What a change is to be.
#[derive(Clone, Copy)]
pub(crate) enum Wanted {
    /// What Puppet sent, or an expiration.
    Sent,
    /// So many facts, or so many resources.
    Count(usize),
    /// What is left of equal edges and equal tags.
    Left,
    /// What is read past, as it came.
    Past,
}

fn is_text(text: &Option<Text>, wanted: &str) -> bool {
    match text {
        Some(text) => text.as_str() == wanted,
        None => false,
    }
}

fn are_facts(facts: &FactsChange) -> bool {
    facts.certname.as_str() == "app01.example.com"
        && is_text(&facts.environment, "production")
        && is_text(&facts.producer, "puppet.example.com")
        && facts.values.len() == 130
        && facts.stamp.as_nanosecond() == 1_705_312_800_514_000_000
}

fn facts_are(facts: &FactsChange, wanted: Wanted) -> bool {
    match wanted {
        Wanted::Sent => are_facts(facts),
        Wanted::Count(count) => facts.values.len() == count,
        _ => false,
    }
}

// Whether there are so many, and the one at the place has the title and the line.
fn are_resources(
    resources: &[Resource],
    count: usize,
    place: usize,
    title: &str,
    line: Option<u64>,
) -> bool {
    match resources.get(place) {
        Some(resource) => {
            resources.len() == count && resource.title.as_str() == title && resource.line == line
        }
        None => false,
    }
}

// Whether there are so many, and the one at the place leads to the title.
fn are_edges(
    edges: &[Edge],
    count: usize,
    place: usize,
    relationship: Relationship,
    title: &str,
) -> bool {
    match edges.get(place) {
        Some(edge) => {
            edges.len() == count
                && edge.relationship == relationship
                && edge.target.title.as_str() == title
        }
        None => false,
    }
}

fn is_catalog(catalog: &CatalogChange) -> bool {
    let resources = catalog.resources.as_slice();
    let edges = catalog.edges.as_slice();
    catalog.certname.as_str() == "app01.example.com"
        && catalog.stamp.as_nanosecond() == 1_705_312_800_717_000_000
        && are_resources(resources, 11, 5, "/etc/issue.net", Some(2))
        && are_edges(edges, 11, 10, Relationship::SubscriptionOf, "once")
}

// Whether the resource has these tags in this order.
fn has_tags(resource: &Resource, wanted: &[&'static str]) -> bool {
    let tags = resource.tags.as_slice();
    if tags.len() != wanted.len() {
        return false;
    }
    for (tag, text) in tags.iter().zip(wanted.iter()) {
        if tag.as_str() != *text {
            return false;
        }
    }
    true
}

fn have_tags(resources: &[Resource], wanted: &[&'static str]) -> bool {
    for resource in resources {
        if !resource.exported || !has_tags(resource, wanted) {
            return false;
        }
    }
    true
}

// Whether two edges are left, and of each resource the tags `a` and `b`.
fn are_left(catalog: &CatalogChange) -> bool {
    catalog.edges.as_slice().len() == 2 && have_tags(catalog.resources.as_slice(), &["a", "b"])
}

fn catalog_is(catalog: &CatalogChange, wanted: Wanted) -> bool {
    match wanted {
        Wanted::Sent => is_catalog(catalog),
        Wanted::Count(count) => catalog.resources.as_slice().len() == count,
        Wanted::Left => are_left(catalog),
        Wanted::Past => false,
    }
}

// Whether so many resources, logs and metrics are kept.
fn has_counts(report: &ReportChange, resources: usize, logs: usize, metrics: usize) -> bool {
    report.resources.as_slice().len() == resources
        && report.logs.as_slice().len() == logs
        && report.metrics.as_slice().len() == metrics
}

fn is_report(report: &ReportChange) -> bool {
    report.certname.as_str() == "app01.example.com"
        && report.stamp.as_nanosecond() == 1_705_312_800_372_000_000
        && is_text(&report.status, "changed")
        && report.report_format == Some(12)
        && report.noop == Some(false)
        && has_counts(report, 4, 5, 23)
}

fn is_spelt(alloc: Global, items: &Items, text: &str) -> Result<bool, AllocError> {
    let list = Json::List(items.copy(alloc)?);
    let compact = write_compact(alloc, &list)?;
    Ok(compact.as_slice() == text.as_bytes())
}

const READ_PAST: &str =
    r#"{"certname":"a","producer_timestamp":"2024-05-01T10:00:00Z","resources":[{"resource_type":"File","resource_title":"/etc","events":[{"corrective_change":false,"timestamp":"2024-05-01T12:00:00+02:00","old_value":1.50,"status":"success"}]}],"logs":[{"message":1e2,"level":null}],"metrics":[{"value":-0.0}]}"#;

const RESOURCES: &str =
    r#"[{"resource_type":"File","resource_title":"/etc","events":[{"corrective_change":false,"timestamp":"2024-05-01T12:00:00+02:00","old_value":1.50,"status":"success"}]}]"#;

const LOGS: &str = r#"[{"message":1e2,"level":null}]"#;

const METRICS: &str = r#"[{"value":-0.0}]"#;

fn are_kept(alloc: Global, report: &ReportChange) -> Result<bool, AllocError> {
    Ok(
        is_spelt(alloc, &report.resources, RESOURCES)?
            && is_spelt(alloc, &report.logs, LOGS)?
            && is_spelt(alloc, &report.metrics, METRICS)?,
    )
}

fn report_is(alloc: Global, report: &ReportChange, wanted: Wanted) -> Result<bool, AllocError> {
    match wanted {
        Wanted::Sent => Ok(is_report(report)),
        Wanted::Past => are_kept(alloc, report),
        _ => Ok(false),
    }
}

fn is_deactivation(taken: &DeactivateChange) -> bool {
    taken.certname.as_str() == "web01.example.com"
        && taken.stamp.as_nanosecond() == 1_705_312_800_032_000_000
}

fn is_expiration(taken: &ExpirationChange) -> bool {
    taken.stamp.as_nanosecond() == 1_714_557_600_000_000_000 && !taken.expire
}

// Whether the change is of that kind, and is so. In this one function alone a change is taken apart, and it is let go by a call in the
// others, so that no proof walks through its variants at each way out.
fn is_so(alloc: Global, change: &Change, kind: Kind, wanted: Wanted) -> Result<bool, AllocError> {
    let same = match change {
        Change::Facts(facts) => facts_are(facts, wanted),
        Change::Catalog(catalog) => catalog_is(catalog, wanted),
        Change::Report(report) => report_is(alloc, report, wanted)?,
        Change::Deactivate(taken) => is_deactivation(taken),
        Change::Expiration(taken) => is_expiration(taken),
    };
    Ok(same && change.kind() == kind)
}

/// Whether the payload asks for a change of its kind, which is so.
pub(crate) fn asks_for(
    alloc: Global,
    kind: Kind,
    payload: &[u8],
    wanted: Wanted,
) -> Result<bool, Wrong> {
    let change = change(alloc, kind, payload)?;
    let told = is_so(alloc, &change, kind, wanted);
    drop(change);
    Ok(told?)
}

#[test]
fn facts_that_puppet_sent_are_taken(rt: HostRuntime) -> Result<(), Wrong> {
    let sent = asks_for(
        rt.alloc(),
        Kind::Facts,
        real_payloads::facts(),
        Wanted::Sent,
    )?;
    holds(sent, 0)
}

// A copy of the change that the payload asks for.
fn copied(alloc: Global, kind: Kind, payload: &[u8]) -> Result<Change, Wrong> {
    let change = change(alloc, kind, payload)?;
    let copy = change.copy(alloc);
    drop(change);
    Ok(copy?)
}

// Whether the copy is so.
fn copy_is(alloc: Global, kind: Kind, payload: &[u8], wanted: Wanted) -> Result<bool, Wrong> {
    let copy = copied(alloc, kind, payload)?;
    let told = is_so(alloc, &copy, kind, wanted);
    drop(copy);
    Ok(told?)
}

#[test]
fn a_copy_of_a_catalog_that_puppet_sent_is_that_catalog(rt: HostRuntime) -> Result<(), Wrong> {
    let sent = copy_is(
        rt.alloc(),
        Kind::Catalog,
        real_payloads::catalog(),
        Wanted::Sent,
    )?;
    holds(sent, 0)
}

const EQUAL_EDGES_AND_TAGS: &str =
    r#"{"certname":"a","version":"1","producer_timestamp":"2024-05-01T10:00:00Z","edges":[
  {"source":{"type":"A","title":"a"},"target":{"type":"B","title":"b"},"relationship":"before"},
  {"source":{"type":"A","title":"a"},"target":{"type":"B","title":"c"},"relationship":"before"},
  {"relationship":"before","target":{"title":"b","type":"B"},"source":{"type":"A","title":"a"}}],
  "resources":[{"type":"File","title":"x","tags":["b","a","b"],"exported":true}]}"#;

#[test]
fn of_equal_edges_and_equal_tags_one_stays(rt: HostRuntime) -> Result<(), Wrong> {
    let payload = EQUAL_EDGES_AND_TAGS.as_bytes();
    let left = asks_for(rt.alloc(), Kind::Catalog, payload, Wanted::Left)?;
    holds(left, 0)
}

#[test]
fn a_report_that_puppet_sent_is_taken(rt: HostRuntime) -> Result<(), Wrong> {
    let sent = asks_for(
        rt.alloc(),
        Kind::Report,
        real_payloads::report(),
        Wanted::Sent,
    )?;
    holds(sent, 0)
}

#[test]
fn what_is_read_past_is_kept_as_it_came(rt: HostRuntime) -> Result<(), Wrong> {
    let payload = READ_PAST.as_bytes();
    let kept = asks_for(rt.alloc(), Kind::Report, payload, Wanted::Past)?;
    holds(kept, 0)
}

const EXPIRATION: &[u8] =
    br#"{"certname":"a","producer_timestamp":"2024-05-01T12:00:00+02:00","expire":{"facts":false}}"#;

#[test]
fn a_deactivation_and_an_expiration_are_taken(rt: HostRuntime) -> Result<(), Wrong> {
    let alloc = rt.alloc();
    let taken = asks_for(
        alloc,
        Kind::Deactivate,
        real_payloads::deactivation(),
        Wanted::Sent,
    )?;
    holds(taken, 0)?;
    let taken = asks_for(alloc, Kind::Expiration, EXPIRATION, Wanted::Sent)?;
    holds(taken, 1)
}
