//! The columns of tables.
ghost use Rattle.std.specs.Prelude.{◌≡◌};
ghost use Rattle.fleet_rows.specs.Columns.{column_name, columns_of, column_named, first_named, place_of, place_in};

use crate::row::Entity;

/// A column of a table, by its name in PuppetDB's query API v4 ("Entities"). Columns of the same name share one variant. The
/// variants are sorted by the bytes of their names.
#[derive(Clone, Copy, PartialEq, Eq, Debug)]
pub enum Column {
    CatalogEnvironment,
    CatalogTimestamp,
    CatalogUuid,
    Certname,
    CodeId,
    ConfigurationVersion,
    Deactivated,
    EndTime,
    Environment,
    Expired,
    Exported,
    Facts,
    FactsEnvironment,
    FactsTimestamp,
    Failures,
    File,
    Hash,
    JobId,
    LatestReportHash,
    LatestReportNoop,
    LatestReportStatus,
    Line,
    Logs,
    Message,
    Metrics,
    Name,
    Noop,
    Noops,
    Others,
    Parameters,
    Path,
    Producer,
    ProducerTimestamp,
    Property,
    PuppetVersion,
    ReceiveTime,
    Relationship,
    Report,
    ReportEnvironment,
    ReportFormat,
    ReportTimestamp,
    Resource,
    ResourceTitle,
    ResourceType,
    Resources,
    Skips,
    SourceTitle,
    SourceType,
    StartTime,
    Status,
    Successes,
    Tags,
    TargetTitle,
    TargetType,
    Timestamp,
    Title,
    TransactionUuid,
    Trusted,
    Type,
    Value,
    Version,
}

// Each column, sorted by the bytes of its name.
const ALL: &[Column] = &[
    Column::CatalogEnvironment,
    Column::CatalogTimestamp,
    Column::CatalogUuid,
    Column::Certname,
    Column::CodeId,
    Column::ConfigurationVersion,
    Column::Deactivated,
    Column::EndTime,
    Column::Environment,
    Column::Expired,
    Column::Exported,
    Column::Facts,
    Column::FactsEnvironment,
    Column::FactsTimestamp,
    Column::Failures,
    Column::File,
    Column::Hash,
    Column::JobId,
    Column::LatestReportHash,
    Column::LatestReportNoop,
    Column::LatestReportStatus,
    Column::Line,
    Column::Logs,
    Column::Message,
    Column::Metrics,
    Column::Name,
    Column::Noop,
    Column::Noops,
    Column::Others,
    Column::Parameters,
    Column::Path,
    Column::Producer,
    Column::ProducerTimestamp,
    Column::Property,
    Column::PuppetVersion,
    Column::ReceiveTime,
    Column::Relationship,
    Column::Report,
    Column::ReportEnvironment,
    Column::ReportFormat,
    Column::ReportTimestamp,
    Column::Resource,
    Column::ResourceTitle,
    Column::ResourceType,
    Column::Resources,
    Column::Skips,
    Column::SourceTitle,
    Column::SourceType,
    Column::StartTime,
    Column::Status,
    Column::Successes,
    Column::Tags,
    Column::TargetTitle,
    Column::TargetType,
    Column::Timestamp,
    Column::Title,
    Column::TransactionUuid,
    Column::Trusted,
    Column::Type,
    Column::Value,
    Column::Version,
];

const OF_NODES: &[Column] = &[
    Column::CatalogEnvironment,
    Column::CatalogTimestamp,
    Column::Certname,
    Column::Deactivated,
    Column::Expired,
    Column::FactsEnvironment,
    Column::FactsTimestamp,
    Column::LatestReportHash,
    Column::LatestReportNoop,
    Column::LatestReportStatus,
    Column::ReportEnvironment,
    Column::ReportTimestamp,
];

const OF_FACTSETS: &[Column] = &[
    Column::Certname,
    Column::Environment,
    Column::Facts,
    Column::Hash,
    Column::Producer,
    Column::ProducerTimestamp,
];

const OF_FACTS: &[Column] = &[
    Column::Certname,
    Column::Environment,
    Column::Name,
    Column::Value,
];

const OF_CATALOGS: &[Column] = &[
    Column::CatalogUuid,
    Column::Certname,
    Column::CodeId,
    Column::Environment,
    Column::Hash,
    Column::JobId,
    Column::Producer,
    Column::ProducerTimestamp,
    Column::TransactionUuid,
    Column::Version,
];

const OF_RESOURCES: &[Column] = &[
    Column::Certname,
    Column::Environment,
    Column::Exported,
    Column::File,
    Column::Line,
    Column::Parameters,
    Column::Resource,
    Column::Tags,
    Column::Title,
    Column::Type,
];

const OF_EDGES: &[Column] = &[
    Column::Certname,
    Column::Relationship,
    Column::SourceTitle,
    Column::SourceType,
    Column::TargetTitle,
    Column::TargetType,
];

const OF_REPORTS: &[Column] = &[
    Column::Certname,
    Column::ConfigurationVersion,
    Column::EndTime,
    Column::Environment,
    Column::Hash,
    Column::Logs,
    Column::Metrics,
    Column::Noop,
    Column::Producer,
    Column::ProducerTimestamp,
    Column::PuppetVersion,
    Column::ReceiveTime,
    Column::ReportFormat,
    Column::Resources,
    Column::StartTime,
    Column::Status,
    Column::TransactionUuid,
];

const OF_FACT_CONTENTS: &[Column] = &[
    Column::Certname,
    Column::Environment,
    Column::Name,
    Column::Path,
    Column::Value,
];

const OF_INVENTORY: &[Column] = &[
    Column::Certname,
    Column::Environment,
    Column::Facts,
    Column::Timestamp,
    Column::Trusted,
];

const OF_EVENTS: &[Column] = &[
    Column::Certname,
    Column::Message,
    Column::Property,
    Column::Report,
    Column::ResourceTitle,
    Column::ResourceType,
    Column::Status,
    Column::Timestamp,
];

const OF_EVENT_COUNTS: &[Column] = &[
    Column::Certname,
    Column::Failures,
    Column::Noops,
    Column::Others,
    Column::Skips,
    Column::Successes,
];

impl Column {
    /// The name, as in a query and in a printed row.
    pub fn name(&self) -> &'static str
        ensures { result.now ≡ column_name self.now }
    {
        match self {
            Column::CatalogEnvironment => "catalog_environment",
            Column::CatalogTimestamp => "catalog_timestamp",
            Column::CatalogUuid => "catalog_uuid",
            Column::Certname => "certname",
            Column::CodeId => "code_id",
            Column::ConfigurationVersion => "configuration_version",
            Column::Deactivated => "deactivated",
            Column::EndTime => "end_time",
            Column::Environment => "environment",
            Column::Expired => "expired",
            Column::Exported => "exported",
            Column::Facts => "facts",
            Column::FactsEnvironment => "facts_environment",
            Column::FactsTimestamp => "facts_timestamp",
            Column::Failures => "failures",
            Column::File => "file",
            Column::Hash => "hash",
            Column::JobId => "job_id",
            Column::LatestReportHash => "latest_report_hash",
            Column::LatestReportNoop => "latest_report_noop",
            Column::LatestReportStatus => "latest_report_status",
            Column::Line => "line",
            Column::Logs => "logs",
            Column::Message => "message",
            Column::Metrics => "metrics",
            Column::Name => "name",
            Column::Noop => "noop",
            Column::Noops => "noops",
            Column::Others => "others",
            Column::Parameters => "parameters",
            Column::Path => "path",
            Column::Producer => "producer",
            Column::ProducerTimestamp => "producer_timestamp",
            Column::Property => "property",
            Column::PuppetVersion => "puppet_version",
            Column::ReceiveTime => "receive_time",
            Column::Relationship => "relationship",
            Column::Report => "report",
            Column::ReportEnvironment => "report_environment",
            Column::ReportFormat => "report_format",
            Column::ReportTimestamp => "report_timestamp",
            Column::Resource => "resource",
            Column::ResourceTitle => "resource_title",
            Column::ResourceType => "resource_type",
            Column::Resources => "resources",
            Column::Skips => "skips",
            Column::SourceTitle => "source_title",
            Column::SourceType => "source_type",
            Column::StartTime => "start_time",
            Column::Status => "status",
            Column::Successes => "successes",
            Column::Tags => "tags",
            Column::TargetTitle => "target_title",
            Column::TargetType => "target_type",
            Column::Timestamp => "timestamp",
            Column::Title => "title",
            Column::TransactionUuid => "transaction_uuid",
            Column::Trusted => "trusted",
            Column::Type => "type",
            Column::Value => "value",
            Column::Version => "version",
        }
    }

    /// The column with this name, or None if no table has one.
    pub fn from_name(name: &str) -> Option<Column>
        ensures { result ≡ column_named name.now }
    {
        named(ALL, name)
    }
}

fn named(columns: &[Column], name: &str) -> Option<Column>
    ensures { result ≡ first_named name.now columns.now }
{
    for column in columns {
        if column.name() == name {
            return Some(*column);
        }
    }
    None
}

impl Entity {
    /// The columns of this entity's rows, in order.
    pub fn columns(&self) -> &'static [Column]
        ensures { result.now ≡ columns_of self.now }
    {
        match self {
            Entity::Nodes => OF_NODES,
            Entity::Factsets => OF_FACTSETS,
            Entity::Facts => OF_FACTS,
            Entity::Catalogs => OF_CATALOGS,
            Entity::Resources => OF_RESOURCES,
            Entity::Edges => OF_EDGES,
            Entity::Reports => OF_REPORTS,
            Entity::FactContents => OF_FACT_CONTENTS,
            Entity::Inventory => OF_INVENTORY,
            Entity::Events => OF_EVENTS,
            Entity::EventCounts => OF_EVENT_COUNTS,
        }
    }

    /// The index of a column among those of this entity's rows, from 0; None if they have no such column.
    pub fn place(&self, column: Column) -> Option<usize>
        ensures { result ≡ place_of self.now column }
    {
        place(self.columns(), column)
    }
}

fn place(columns: &[Column], column: Column) -> Option<usize>
    ensures { result ≡ place_in column 0 columns.now }
{
    for (place, other) in columns.iter().enumerate() {
        if other.name() == column.name() {
            return Some(place);
        }
    }
    None
}
