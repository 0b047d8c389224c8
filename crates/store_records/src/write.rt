//! Encodes a record.
ghost use Rattle.std.specs.Prelude.{◌≡◌, ◌++◌, ◌∷◌, ◌<◌, ◌^◌, [], length, IfOk, OnOk};
ghost use Rattle.std.specs.List.{AllByRecursion};
ghost use Rattle.wire_catalog.specs.fleet_rows.Change.{change_kind, kind_number};
ghost use Rattle.record_fields.specs.history_spec.Lawful.{IsEdge, IsResource, IsFactsChange, IsCatalogChange, IsReportChange, IsDeactivateChange};
ghost use Rattle.record_fields.specs.history_spec.Lawful.{IsExpirationChange, IsChange};
ghost use Rattle.record_fields.specs.record_spec.Parts.{bytes_text, bool_text, optional, long_text, moment_text, list_text, kinds_number};
ghost use Rattle.record_fields.specs.record_spec.Changes.{facts_text, edge_text, resource_text, catalog_text, report_bytes, deactivate_text};
ghost use Rattle.record_fields.specs.record_spec.Changes.{expiration_text, change_text};
ghost use Rattle.record_fields.specs.record_spec.Store.{days_text, store_text, IsStoreRecord};
ghost use Rattle.store_records.specs.Written.{catalog_head, catalog_marks, report_head, report_times, report_run};

use json_read::json_tree::Bytes;
use record_fields::record_spec::StoreRecord;
use record_fields::{put_bool, put_bytes, put_moment, put_u32, put_u64};
use record_values::{
    put_members, put_optional_bool, put_optional_moment, put_optional_text, put_optional_u64,
    put_text, put_texts, put_values,
};
use std::alloc::{AllocError, Global};
use wire_catalog::fleet_rows::{
    CatalogChange, Change, DeactivateChange, Edge, ExpirationChange, FactsChange, Kinds,
    ReportChange, Resource,
};
use wire_catalog::relationship_name;

fn put_facts(out: &mut Vec<u8>, change: &FactsChange) -> Result<(), AllocError>
    requires { IsFactsChange change.now }
    ensures { OnOk result (out.new.items ≡ out.old.items ++ facts_text change.now) }
{
    put_text(out, &change.certname)?;
    put_optional_text(out, &change.environment)?;
    put_members(out, &change.values)?;
    put_moment(out, change.stamp)?;
    put_optional_text(out, &change.producer)?;
    Ok(())
}

#[tactic(auto, using(change_reader::proofs::Relationships::name_counted))]
fn put_edge(out: &mut Vec<u8>, edge: &Edge) -> Result<(), AllocError>
    requires { IsEdge edge.now }
    ensures { OnOk result (out.new.items ≡ out.old.items ++ edge_text edge.now) }
{
    put_text(out, &edge.source.rtype)?;
    put_text(out, &edge.source.title)?;
    put_text(out, &edge.target.rtype)?;
    put_text(out, &edge.target.title)?;
    put_bytes(out, relationship_name(edge.relationship).as_bytes())?;
    Ok(())
}

fn put_edges(out: &mut Vec<u8>, edges: &[Edge]) -> Result<(), AllocError>
    requires counted { length edges.now < 2 ^ 32 }
    requires edges { AllByRecursion IsEdge edges.now }
    ensures { OnOk result (out.new.items ≡ out.old.items ++ list_text edge_text edges.now) }
{
    put_u32(out, edges.len() as u32)?;
    for edge in edges {
        put_edge(out, edge)?;
    }
    Ok(())
}

fn put_resource(out: &mut Vec<u8>, resource: &Resource) -> Result<(), AllocError>
    requires { IsResource resource.now }
    ensures { OnOk result (out.new.items ≡ out.old.items ++ resource_text resource.now) }
{
    put_text(out, &resource.rtype)?;
    put_text(out, &resource.title)?;
    put_bool(out, resource.exported)?;
    put_optional_text(out, &resource.file)?;
    put_optional_u64(out, resource.line)?;
    put_texts(out, resource.tags.as_slice())?;
    put_members(out, &resource.parameters)?;
    Ok(())
}

fn put_resources(out: &mut Vec<u8>, resources: &[Resource]) -> Result<(), AllocError>
    requires counted { length resources.now < 2 ^ 32 }
    requires resources { AllByRecursion IsResource resources.now }
    ensures { OnOk result (out.new.items ≡ out.old.items ++ list_text resource_text resources.now) }
{
    put_u32(out, resources.len() as u32)?;
    for resource in resources {
        put_resource(out, resource)?;
    }
    Ok(())
}

// Appends certname, version and environment.
fn put_catalog_head(out: &mut Vec<u8>, change: &CatalogChange) -> Result<(), AllocError>
    requires { IsCatalogChange change.now }
    ensures { OnOk result (out.new.items ≡ out.old.items ++ catalog_head change.now) }
{
    put_text(out, &change.certname)?;
    put_text(out, &change.version)?;
    put_optional_text(out, &change.environment)?;
    Ok(())
}

// Appends the identifiers.
fn put_catalog_marks(out: &mut Vec<u8>, change: &CatalogChange) -> Result<(), AllocError>
    requires { IsCatalogChange change.now }
    ensures { OnOk result (out.new.items ≡ out.old.items ++ catalog_marks change.now) }
{
    put_optional_text(out, &change.transaction_uuid)?;
    put_optional_text(out, &change.catalog_uuid)?;
    put_optional_text(out, &change.code_id)?;
    put_optional_text(out, &change.job_id)?;
    Ok(())
}

fn put_catalog(out: &mut Vec<u8>, change: &CatalogChange) -> Result<(), AllocError>
    requires { IsCatalogChange change.now }
    ensures { OnOk result (out.new.items ≡ out.old.items ++ catalog_text change.now) }
{
    put_catalog_head(out, change)?;
    put_catalog_marks(out, change)?;
    put_moment(out, change.stamp)?;
    put_optional_text(out, &change.producer)?;
    put_edges(out, change.edges.as_slice())?;
    put_resources(out, change.resources.as_slice())?;
    Ok(())
}

// Appends certname, environment, Puppet's version, the format and the configuration's version.
fn put_report_head(out: &mut Vec<u8>, change: &ReportChange) -> Result<(), AllocError>
    requires { IsReportChange change.now }
    ensures { OnOk result (out.new.items ≡ out.old.items ++ report_head change.now) }
{
    put_text(out, &change.certname)?;
    put_optional_text(out, &change.environment)?;
    put_optional_text(out, &change.puppet_version)?;
    put_optional_u64(out, change.report_format)?;
    put_optional_text(out, &change.configuration_version)?;
    Ok(())
}

// Appends when the run began and ended, and the producer's timestamp.
fn put_report_times(out: &mut Vec<u8>, change: &ReportChange) -> Result<(), AllocError>
    ensures { OnOk result (out.new.items ≡ out.old.items ++ report_times change.now) }
{
    put_optional_moment(out, change.start_time)?;
    put_optional_moment(out, change.end_time)?;
    put_moment(out, change.stamp)?;
    Ok(())
}

// Appends producer, noop, status and the transaction's identifier.
fn put_report_run(out: &mut Vec<u8>, change: &ReportChange) -> Result<(), AllocError>
    requires { IsReportChange change.now }
    ensures { OnOk result (out.new.items ≡ out.old.items ++ report_run change.now) }
{
    put_optional_text(out, &change.producer)?;
    put_optional_bool(out, change.noop)?;
    put_optional_text(out, &change.status)?;
    put_optional_text(out, &change.transaction_uuid)?;
    Ok(())
}

fn put_report(out: &mut Vec<u8>, change: &ReportChange) -> Result<(), AllocError>
    requires { IsReportChange change.now }
    ensures { OnOk result (out.new.items ≡ out.old.items ++ report_bytes change.now) }
{
    put_report_head(out, change)?;
    put_report_times(out, change)?;
    put_report_run(out, change)?;
    put_values(out, change.resources.as_slice())?;
    put_values(out, change.logs.as_slice())?;
    put_values(out, change.metrics.as_slice())?;
    Ok(())
}

fn put_deactivate(out: &mut Vec<u8>, change: &DeactivateChange) -> Result<(), AllocError>
    requires { IsDeactivateChange change.now }
    ensures { OnOk result (out.new.items ≡ out.old.items ++ deactivate_text change.now) }
{
    put_text(out, &change.certname)?;
    put_moment(out, change.stamp)?;
    Ok(())
}

fn put_expiration(out: &mut Vec<u8>, change: &ExpirationChange) -> Result<(), AllocError>
    requires { IsExpirationChange change.now }
    ensures { OnOk result (out.new.items ≡ out.old.items ++ expiration_text change.now) }
{
    put_text(out, &change.certname)?;
    put_moment(out, change.stamp)?;
    put_bool(out, change.expire)?;
    Ok(())
}

fn put_change(out: &mut Vec<u8>, change: &Change) -> Result<(), AllocError>
    requires { IsChange change.now }
    ensures { OnOk result (out.new.items ≡ out.old.items ++ change_text change.now) }
{
    match change {
        Change::Facts(change) => {
            out.push(0)?;
            put_facts(out, change)?;
        }
        Change::Catalog(change) => {
            out.push(1)?;
            put_catalog(out, change)?;
        }
        Change::Report(change) => {
            out.push(2)?;
            put_report(out, change)?;
        }
        Change::Deactivate(change) => {
            out.push(3)?;
            put_deactivate(out, change)?;
        }
        Change::Expiration(change) => {
            out.push(4)?;
            put_expiration(out, change)?;
        }
    }
    Ok(())
}

fn put_days(out: &mut Vec<u8>, node: u32, purge: u32, report: u32) -> Result<(), AllocError>
    ensures { OnOk result (out.new.items ≡ out.old.items ++ days_text node purge report) }
{
    put_u32(out, node)?;
    put_u32(out, purge)?;
    put_u32(out, report)?;
    Ok(())
}

// The kinds of a sweep, as bits.
fn bits(kinds: &Kinds) -> u8
    ensures { result ≡ kinds_number kinds.now }
{
    let expire = if kinds.expire { 1 } else { 0 };
    let purge = if kinds.purge { 2 } else { 0 };
    let reports = if kinds.reports { 4 } else { 0 };
    expire + (purge + reports)
}

/// The only encoding of the record.
pub fn write_store(alloc: Global, rec: &StoreRecord) -> Result<Bytes, AllocError>
    requires { IsStoreRecord rec.now }
    ensures { IfOk result (λ b. b ≡ store_text rec.now) }
{
    let mut out = Vec::new(alloc);
    put_record(&mut out, rec)?;
    Ok(Bytes::from_vec(out))
}

fn put_record(out: &mut Vec<u8>, rec: &StoreRecord) -> Result<(), AllocError>
    requires { IsStoreRecord rec.now }
    ensures { OnOk result (out.new.items ≡ out.old.items ++ store_text rec.now) }
{
    match rec {
        StoreRecord::Settings(node, purge, report) => {
            out.push(0)?;
            put_days(out, *node, *purge, *report)?;
        }
        StoreRecord::Base(expire, retain, taken) => {
            out.push(1)?;
            put_optional_moment(out, *expire)?;
            put_optional_moment(out, *retain)?;
            put_optional_u64(out, *taken)?;
        }
        StoreRecord::Marks(mark) => {
            out.push(2)?;
            put_text(out, &mark.certname)?;
            put_optional_moment(out, mark.active)?;
            put_optional_moment(out, mark.deactivated)?;
        }
        StoreRecord::Applied(receipt, change) => {
            out.push(3)?;
            put_u64(out, *receipt)?;
            put_change(out, change)?;
        }
        StoreRecord::Swept(kinds, moment) => {
            out.push(4)?;
            out.push(bits(kinds))?;
            put_moment(out, *moment)?;
        }
        StoreRecord::Received(receipt, received, change) => {
            out.push(5)?;
            put_u64(out, *receipt)?;
            put_optional_moment(out, *received)?;
            put_change(out, change)?;
        }
        StoreRecord::Limits(node, purge, report, count) => {
            out.push(6)?;
            put_days(out, *node, *purge, *report)?;
            put_u32(out, *count)?;
        }
    }
    Ok(())
}
