//! The names and keys of fields.
ghost use Rattle.std.specs.Prelude.{◌≡◌};
ghost use Rattle.wire_spec.specs.Refusals.{field_key, field_name};

use wire_spec::fleet_rows::Field;

/// A field as printed. A field of a nested object that is no list element follows the name of that object, as in `expire.facts`.
pub fn name(field: Field) -> &'static str
    ensures { result.now ≡ field_name field }
{
    match field {
        Field::Certname => "certname",
        Field::Environment => "environment",
        Field::Values => "values",
        Field::ProducerTimestamp => "producer_timestamp",
        Field::Producer => "producer",
        Field::Version => "version",
        Field::TransactionUuid => "transaction_uuid",
        Field::CatalogUuid => "catalog_uuid",
        Field::CodeId => "code_id",
        Field::JobId => "job_id",
        Field::Edges => "edges",
        Field::Resources => "resources",
        Field::Type => "type",
        Field::Title => "title",
        Field::Exported => "exported",
        Field::File => "file",
        Field::Line => "line",
        Field::Tags => "tags",
        Field::Parameters => "parameters",
        Field::Source => "source",
        Field::SourceType => "source.type",
        Field::SourceTitle => "source.title",
        Field::Target => "target",
        Field::TargetType => "target.type",
        Field::TargetTitle => "target.title",
        Field::Relationship => "relationship",
        Field::PuppetVersion => "puppet_version",
        Field::ReportFormat => "report_format",
        Field::ConfigurationVersion => "configuration_version",
        Field::StartTime => "start_time",
        Field::EndTime => "end_time",
        Field::Noop => "noop",
        Field::Status => "status",
        Field::Logs => "logs",
        Field::Metrics => "metrics",
        Field::ResourceType => "resource_type",
        Field::ResourceTitle => "resource_title",
        Field::Events => "events",
        Field::Timestamp => "timestamp",
        Field::Property => "property",
        Field::Message => "message",
        Field::Expire => "expire",
        Field::ExpireFacts => "expire.facts",
    }
}

/// The key of the field in its object.
pub fn key(field: Field) -> &'static str
    ensures { result.now ≡ field_key field }
{
    match field {
        Field::SourceType | Field::TargetType => "type",
        Field::SourceTitle | Field::TargetTitle => "title",
        Field::ExpireFacts => "facts",
        named => name(named),
    }
}
