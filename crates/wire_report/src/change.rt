//! Reads a report from a payload's object.
ghost use Rattle.std.specs.Prelude.{◌≡◌, ◌≢◌, Err};
ghost use Rattle.wire_fields.specs.text_spec.Json.{object, members_of};
ghost use Rattle.wire_fields.specs.wire_spec.Table.{object_change};
ghost use Rattle.wire_fields.specs.Answers.{Gives};
ghost use Rattle.wire_fields.specs.wire_spec.Counted.{IsCounted};
ghost use Rattle.wire_fields.specs.declared.fault.WireFault.TheVariants.{Memory};
ghost use Rattle.wire_report.specs.InOrder.{fields_of, change_in_order, IfCounted};
ghost use Rattle.wire_fields.specs.fleet_rows.declared.command.Kind.TheVariants as kind;

use crate::objects::objects;
use crate::resource::resources;
use std::alloc::Global;
use wire_fields::fleet_rows::{Change, Field, Refusal, ReportChange};
use wire_fields::json_tree::{Items, Members, Text};
use wire_fields::stamp_time::Moment;
use wire_fields::{
    WireFault, optional_bool, optional_items, optional_stamp, optional_text, optional_whole_number,
    required_nonempty_text, required_stamp, top,
};

// The fields as taken out of the object, before the first refusal is searched.
#[derive(Drop)]
struct ReportFields {
    certname: Result<Text, Refusal>,
    environment: Result<Option<Text>, Refusal>,
    puppet_version: Result<Option<Text>, Refusal>,
    report_format: Result<Option<u64>, Refusal>,
    configuration_version: Result<Option<Text>, Refusal>,
    start_time: Result<Option<Moment>, Refusal>,
    end_time: Result<Option<Moment>, Refusal>,
    stamp: Result<Moment, Refusal>,
    producer: Result<Option<Text>, Refusal>,
    noop: Result<Option<bool>, Refusal>,
    status: Result<Option<Text>, Refusal>,
    transaction_uuid: Result<Option<Text>, Refusal>,
    resources: Result<Option<Items>, Refusal>,
    logs: Result<Option<Items>, Refusal>,
    metrics: Result<Option<Items>, Refusal>,
}

/// The report in the object, or the first refusal. The order is: certname, environment, puppet_version, report_format,
/// configuration_version, start_time, end_time, producer_timestamp, producer, noop, status, transaction_uuid, the resources one
/// by one, each with its events, the logs, the metrics. An absent or null list is empty. The others are moved as received.
/// Unknown keys are ignored. It allocates nothing.
pub fn report(alloc: Global, json: Members) -> Result<Change, WireFault>
    // 32-bit indices reach each element of each list.
    requires { IsCounted (object (members_of json)) }
    ensures value { Gives result (object_change kind.Report json) }
    ensures never_memory { result ≢ Err Memory }
{
    match in_order(alloc, fields(json)) {
        Ok(change) => Ok(change),
        Err(refusal) => Err(WireFault::Refused(refusal)),
    }
}

fn fields(json: Members) -> ReportFields
    ensures { result ≡ fields_of json }
{
    let mut json = json;
    let certname = required_nonempty_text(&mut json, top(Field::Certname));
    let environment = optional_text(&mut json, top(Field::Environment));
    let puppet_version = optional_text(&mut json, top(Field::PuppetVersion));
    let report_format = optional_whole_number(&mut json, top(Field::ReportFormat));
    let configuration_version = optional_text(&mut json, top(Field::ConfigurationVersion));
    let start_time = optional_stamp(&mut json, top(Field::StartTime));
    let end_time = optional_stamp(&mut json, top(Field::EndTime));
    let stamp = required_stamp(&mut json, top(Field::ProducerTimestamp));
    let producer = optional_text(&mut json, top(Field::Producer));
    let noop = optional_bool(&mut json, top(Field::Noop));
    let status = optional_text(&mut json, top(Field::Status));
    let transaction_uuid = optional_text(&mut json, top(Field::TransactionUuid));
    let resources = optional_items(&mut json, top(Field::Resources));
    let logs = optional_items(&mut json, top(Field::Logs));
    let metrics = optional_items(&mut json, top(Field::Metrics));
    ReportFields {
        certname,
        environment,
        puppet_version,
        report_format,
        configuration_version,
        start_time,
        end_time,
        stamp,
        producer,
        noop,
        status,
        transaction_uuid,
        resources,
        logs,
        metrics,
    }
}

// The change, or the first refusal.
fn in_order(alloc: Global, fields: ReportFields) -> Result<Change, Refusal>
    requires resources { IfCounted fields.resources }
    requires logs { IfCounted fields.logs }
    requires metrics { IfCounted fields.metrics }
    ensures { result ≡ change_in_order fields }
{
    Ok(Change::Report(ReportChange {
        certname: fields.certname?,
        environment: fields.environment?,
        puppet_version: fields.puppet_version?,
        report_format: fields.report_format?,
        configuration_version: fields.configuration_version?,
        start_time: fields.start_time?,
        end_time: fields.end_time?,
        stamp: fields.stamp?,
        producer: fields.producer?,
        noop: fields.noop?,
        status: fields.status?,
        transaction_uuid: fields.transaction_uuid?,
        resources: resources(alloc, fields.resources)?,
        logs: objects(alloc, Field::Logs, fields.logs)?,
        metrics: objects(alloc, Field::Metrics, fields.metrics)?,
    }))
}
