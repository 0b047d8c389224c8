//! Changes: what each kind of command changes.
use crate::catalog::CatalogChange;
use crate::command::Kind;
use json_tree::{Items, Members, Text};
use stamp_time::Moment;

/// What a command changes when it is applied.
#[derive(Drop)]
pub enum Change {
    Facts(FactsChange),
    Catalog(CatalogChange),
    Report(ReportChange),
    Deactivate(DeactivateChange),
    Expiration(ExpirationChange),
}

/// All facts of a node, which replace the old ones (PuppetDB wire format "replace facts" 5).
#[derive(Drop)]
pub struct FactsChange {
    /// The node. Not empty.
    pub certname: Text,
    pub environment: Option<Text>,
    /// The facts by name, in the order of the payload.
    pub values: Members,
    /// The producer's timestamp.
    pub stamp: Moment,
    pub producer: Option<Text>,
}

/// A report of one run of the agent (PuppetDB wire format "store report" 8).
#[derive(Drop)]
pub struct ReportChange {
    /// The node. Not empty.
    pub certname: Text,
    pub environment: Option<Text>,
    pub puppet_version: Option<Text>,
    /// Below 10^18.
    pub report_format: Option<u64>,
    pub configuration_version: Option<Text>,
    pub start_time: Option<Moment>,
    pub end_time: Option<Moment>,
    /// The producer's timestamp.
    pub stamp: Moment,
    pub producer: Option<Text>,
    pub noop: Option<bool>,
    pub status: Option<Text>,
    pub transaction_uuid: Option<Text>,
    /// As received: with unknown keys, and with events' timestamps in their spelling.
    pub resources: Items,
    /// As received.
    pub logs: Items,
    /// As received.
    pub metrics: Items,
}

/// The deactivation of a node (PuppetDB wire format "deactivate node" 3).
#[derive(Drop)]
pub struct DeactivateChange {
    /// The node. Not empty.
    pub certname: Text,
    /// The producer's timestamp.
    pub stamp: Moment,
}

/// Whether a node may expire (PuppetDB wire format "configure expiration" 1).
#[derive(Drop)]
pub struct ExpirationChange {
    /// The node. Not empty.
    pub certname: Text,
    /// The producer's timestamp.
    pub stamp: Moment,
    /// The payload's `expire.facts`: false keeps the node from expiring.
    pub expire: bool,
}

impl Change {
    ghost use Rattle.std.specs.Prelude.{◌≡◌};
    ghost use Rattle.fleet_rows.specs.Change.{change_certname, change_stamp, change_kind};

    /// The node.
    pub fn certname(&self) -> &Text
        ensures { result.now ≡ change_certname self.now }
    {
        match self {
            Change::Facts(change) => &change.certname,
            Change::Catalog(change) => &change.certname,
            Change::Report(change) => &change.certname,
            Change::Deactivate(change) => &change.certname,
            Change::Expiration(change) => &change.certname,
        }
    }

    /// The producer's timestamp.
    pub fn stamp(&self) -> Moment
        ensures { result ≡ change_stamp self.now }
    {
        match self {
            Change::Facts(change) => change.stamp,
            Change::Catalog(change) => change.stamp,
            Change::Report(change) => change.stamp,
            Change::Deactivate(change) => change.stamp,
            Change::Expiration(change) => change.stamp,
        }
    }

    /// The kind of command that makes this change.
    pub fn kind(&self) -> Kind
        ensures { result ≡ change_kind self.now }
    {
        match self {
            Change::Facts(_) => Kind::Facts,
            Change::Catalog(_) => Kind::Catalog,
            Change::Report(_) => Kind::Report,
            Change::Deactivate(_) => Kind::Deactivate,
            Change::Expiration(_) => Kind::Expiration,
        }
    }
}
