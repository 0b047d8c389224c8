//! Copies changes and groups.
ghost use Rattle.std.specs.Prelude.{◌≡◌, IfOk};

use crate::catalog::{CatalogChange, Edge, Resource, ResourceName};
use crate::change::{Change, DeactivateChange, ExpirationChange, FactsChange, ReportChange};
use crate::command::Group;
use crate::list::{Edges, Names, Resources};
use json_tree::Text;
use std::alloc::{AllocError, Global};

impl Change {
    /// An equal change that shares no memory with this one.
    pub fn copy(&self, alloc: Global) -> Result<Change, AllocError>
        ensures { IfOk result (λ change. change ≡ self.now) }
    {
        match self {
            Change::Facts(change) => Ok(Change::Facts(copy_facts(alloc, change)?)),
            Change::Catalog(change) => Ok(Change::Catalog(copy_catalog(alloc, change)?)),
            Change::Report(change) => Ok(Change::Report(copy_report(alloc, change)?)),
            Change::Deactivate(change) => Ok(Change::Deactivate(copy_deactivation(alloc, change)?)),
            Change::Expiration(change) => Ok(Change::Expiration(copy_expiration(alloc, change)?)),
        }
    }
}

impl Group {
    /// An equal group that shares no memory with this one.
    pub fn copy(&self, alloc: Global) -> Result<Group, AllocError>
        ensures { IfOk result (λ group. group ≡ self.now) }
    {
        Ok(Group {
            certname: copy_text(alloc, &self.certname)?,
            kind: self.kind,
        })
    }
}

/// Equal facts that share no memory with these.
pub fn copy_facts(alloc: Global, change: &FactsChange) -> Result<FactsChange, AllocError>
    ensures { IfOk result (λ copied. copied ≡ change.now) }
{
    Ok(FactsChange {
        certname: copy_text(alloc, &change.certname)?,
        environment: copy_optional(alloc, &change.environment)?,
        values: change.values.copy(alloc)?,
        stamp: change.stamp,
        producer: copy_optional(alloc, &change.producer)?,
    })
}

/// An equal catalog that shares no memory with this one.
pub fn copy_catalog(alloc: Global, change: &CatalogChange) -> Result<CatalogChange, AllocError>
    ensures { IfOk result (λ copied. copied ≡ change.now) }
{
    Ok(CatalogChange {
        certname: copy_text(alloc, &change.certname)?,
        version: copy_text(alloc, &change.version)?,
        environment: copy_optional(alloc, &change.environment)?,
        transaction_uuid: copy_optional(alloc, &change.transaction_uuid)?,
        catalog_uuid: copy_optional(alloc, &change.catalog_uuid)?,
        code_id: copy_optional(alloc, &change.code_id)?,
        job_id: copy_optional(alloc, &change.job_id)?,
        stamp: change.stamp,
        producer: copy_optional(alloc, &change.producer)?,
        edges: copy_edges(alloc, change.edges.as_slice())?,
        resources: copy_resources(alloc, change.resources.as_slice())?,
    })
}

/// An equal report that shares no memory with this one.
pub fn copy_report(alloc: Global, change: &ReportChange) -> Result<ReportChange, AllocError>
    ensures { IfOk result (λ copied. copied ≡ change.now) }
{
    Ok(ReportChange {
        certname: copy_text(alloc, &change.certname)?,
        environment: copy_optional(alloc, &change.environment)?,
        puppet_version: copy_optional(alloc, &change.puppet_version)?,
        report_format: change.report_format,
        configuration_version: copy_optional(alloc, &change.configuration_version)?,
        start_time: change.start_time,
        end_time: change.end_time,
        stamp: change.stamp,
        producer: copy_optional(alloc, &change.producer)?,
        noop: change.noop,
        status: copy_optional(alloc, &change.status)?,
        transaction_uuid: copy_optional(alloc, &change.transaction_uuid)?,
        resources: change.resources.copy(alloc)?,
        logs: change.logs.copy(alloc)?,
        metrics: change.metrics.copy(alloc)?,
    })
}

/// An equal deactivation that shares no memory with this one.
pub fn copy_deactivation(
    alloc: Global,
    change: &DeactivateChange,
) -> Result<DeactivateChange, AllocError>
    ensures { IfOk result (λ copied. copied ≡ change.now) }
{
    Ok(DeactivateChange {
        certname: copy_text(alloc, &change.certname)?,
        stamp: change.stamp,
    })
}

/// An equal configuration of expiration that shares no memory with this one.
pub fn copy_expiration(
    alloc: Global,
    change: &ExpirationChange,
) -> Result<ExpirationChange, AllocError>
    ensures { IfOk result (λ copied. copied ≡ change.now) }
{
    Ok(ExpirationChange {
        certname: copy_text(alloc, &change.certname)?,
        stamp: change.stamp,
        expire: change.expire,
    })
}

fn copy_edges(alloc: Global, list: &[Edge]) -> Result<Edges, AllocError>
    ensures { IfOk result (λ copied. copied ≡ list.now) }
{
    let mut copied = Edges::with_capacity(alloc, list.len())?;
    for edge in list {
        copied.push(copy_edge(alloc, edge)?)?;
    }
    Ok(copied)
}

fn copy_edge(alloc: Global, edge: &Edge) -> Result<Edge, AllocError>
    ensures { IfOk result (λ copied. copied ≡ edge.now) }
{
    Ok(Edge {
        source: copy_name(alloc, &edge.source)?,
        target: copy_name(alloc, &edge.target)?,
        relationship: edge.relationship,
    })
}

fn copy_name(alloc: Global, name: &ResourceName) -> Result<ResourceName, AllocError>
    ensures { IfOk result (λ copied. copied ≡ name.now) }
{
    Ok(ResourceName {
        rtype: copy_text(alloc, &name.rtype)?,
        title: copy_text(alloc, &name.title)?,
    })
}

fn copy_resources(alloc: Global, list: &[Resource]) -> Result<Resources, AllocError>
    ensures { IfOk result (λ copied. copied ≡ list.now) }
{
    let mut copied = Resources::with_capacity(alloc, list.len())?;
    for resource in list {
        copied.push(copy_resource(alloc, resource)?)?;
    }
    Ok(copied)
}

fn copy_resource(alloc: Global, resource: &Resource) -> Result<Resource, AllocError>
    ensures { IfOk result (λ copied. copied ≡ resource.now) }
{
    Ok(Resource {
        rtype: copy_text(alloc, &resource.rtype)?,
        title: copy_text(alloc, &resource.title)?,
        exported: resource.exported,
        file: copy_optional(alloc, &resource.file)?,
        line: resource.line,
        tags: copy_names(alloc, resource.tags.as_slice())?,
        parameters: resource.parameters.copy(alloc)?,
    })
}

fn copy_names(alloc: Global, list: &[Text]) -> Result<Names, AllocError>
    ensures { IfOk result (λ copied. copied ≡ list.now) }
{
    let mut copied = Names::with_capacity(alloc, list.len())?;
    for name in list {
        copied.push(copy_text(alloc, name)?)?;
    }
    Ok(copied)
}

fn copy_optional(alloc: Global, text: &Option<Text>) -> Result<Option<Text>, AllocError>
    ensures { IfOk result (λ copied. copied ≡ text.now) }
{
    match text {
        Some(text) => Ok(Some(copy_text(alloc, text)?)),
        None => Ok(None),
    }
}

fn copy_text(alloc: Global, text: &Text) -> Result<Text, AllocError>
    ensures { IfOk result (λ copied. copied ≡ text.now) }
{
    Text::from_str(alloc, text.as_str())
}
