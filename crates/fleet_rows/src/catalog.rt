//! The catalog change: what "replace catalog" carries.
use crate::list::{Edges, Names, Resources};
use json_tree::{Members, Text};
use stamp_time::Moment;

/// A node's new catalog, which replaces the old one (PuppetDB wire format "replace catalog" 9).
#[derive(Drop)]
pub struct CatalogChange {
    /// The node. Not empty.
    pub certname: Text,
    pub version: Text,
    pub environment: Option<Text>,
    pub transaction_uuid: Option<Text>,
    pub catalog_uuid: Option<Text>,
    pub code_id: Option<Text>,
    pub job_id: Option<Text>,
    /// The producer's timestamp.
    pub stamp: Moment,
    pub producer: Option<Text>,
    /// Distinct, in the order of the payload.
    pub edges: Edges,
    /// Distinct in type and title, in the order of the payload.
    pub resources: Resources,
}

/// A resource of a catalog.
#[derive(Drop)]
pub struct Resource {
    pub rtype: Text,
    pub title: Text,
    pub exported: bool,
    pub file: Option<Text>,
    /// Below 10^18.
    pub line: Option<u64>,
    /// Distinct, and sorted by their bytes.
    pub tags: Names,
    pub parameters: Members,
}

/// A resource by its name.
#[derive(Drop)]
pub struct ResourceName {
    pub rtype: Text,
    pub title: Text,
}

/// A relation between two resources, which may be missing from the catalog.
#[derive(Drop)]
pub struct Edge {
    pub source: ResourceName,
    pub target: ResourceName,
    pub relationship: Relationship,
}

/// How an edge relates its source to its target.
#[derive(Clone, Copy, PartialEq, Eq, Debug)]
pub enum Relationship {
    Contains,
    Before,
    RequiredBy,
    Notifies,
    SubscriptionOf,
}
