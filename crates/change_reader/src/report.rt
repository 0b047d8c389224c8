//! Decodes reports.
ghost use Rattle.std.specs.Prelude.{◌≡◌, ◌<◌, ◌^◌, length, IfOk};
ghost use Rattle.std.specs.Option.{option_map};
ghost use Rattle.std.specs.List.{AllByRecursion};
ghost use Rattle.json_read.specs.json_tree.Tree.{jsons};
ghost use Rattle.wire_catalog.specs.wire_spec.Table.{each_from, report_resource, object_in};
ghost use Rattle.record_fields.specs.history_spec.Lawful.{IsJson};
ghost use Rattle.record_fields.specs.Reading.{Shows};
ghost use Rattle.change_reader.specs.Together.{is_taken};
ghost use Rattle.change_reader.specs.Changes.{report_resources_at, logs_at, metrics_at, report_head_at, report_times_at, report_run_at, report_at};

use json_read::json_tree::{Items, Json, Text};
use json_read::stamp_time::Moment;
use record_fields::take_moment;
use record_values::{
    own_optional, take_certname, take_optional_bool, take_optional_moment, take_optional_text,
    take_optional_whole, take_values,
};
use std::alloc::{AllocError, Global};
use wire_catalog::fleet_rows::{Field, ReportChange};
use wire_catalog::wire_fields::{members_in, outer};
use wire_report::check_resource;

// Whether the wire format accepts each value as a resource with its events.
fn are_resources(values: &[Json]) -> bool
    requires counted { length values.now < 2 ^ 32 }
    requires values { AllByRecursion (IsJson 125) (jsons values.now) }
    ensures { result ≡ is_taken (each_from 0 report_resource (jsons values.now)) }
{
    let mut index = 0;
    for json in values {
        if check_resource(index, json).is_err() {
            return false;
        }
        index += 1;
    }
    true
}

// Whether each value is an object.
fn are_objects(field: Field, values: &[Json]) -> bool
    requires { length values.now < 2 ^ 32 }
    ensures { result ≡ is_taken (each_from 0 (object_in field) (jsons values.now)) }
{
    let mut index = 0;
    for json in values {
        if members_in(outer(index, field), json).is_err() {
            return false;
        }
        index += 1;
    }
    true
}

#[tactic(auto, unfolding(crate::specs::Changes::report_resources_at))]
fn take_resources(alloc: Global, bytes: &[u8]) -> Result<Option<(Items, &[u8])>, AllocError>
    ensures { IfOk result (λ o. Shows (λ x. (x.0, x.1.now)) o (report_resources_at bytes.now)) }
{
    let Some((items, rest)) = take_values(alloc, bytes)? else {
        return Ok(None);
    };
    if are_resources(items.as_slice()) {
        Ok(Some((items, rest)))
    } else {
        Ok(None)
    }
}

#[tactic(auto, unfolding(crate::specs::Changes::logs_at))]
fn take_logs(alloc: Global, bytes: &[u8]) -> Result<Option<(Items, &[u8])>, AllocError>
    ensures { IfOk result (λ o. Shows (λ x. (x.0, x.1.now)) o (logs_at bytes.now)) }
{
    let Some((items, rest)) = take_values(alloc, bytes)? else {
        return Ok(None);
    };
    if are_objects(Field::Logs, items.as_slice()) {
        Ok(Some((items, rest)))
    } else {
        Ok(None)
    }
}

#[tactic(auto, unfolding(crate::specs::Changes::metrics_at))]
fn take_metrics(alloc: Global, bytes: &[u8]) -> Result<Option<(Items, &[u8])>, AllocError>
    ensures { IfOk result (λ o. Shows (λ x. (x.0, x.1.now)) o (metrics_at bytes.now)) }
{
    let Some((items, rest)) = take_values(alloc, bytes)? else {
        return Ok(None);
    };
    if are_objects(Field::Metrics, items.as_slice()) {
        Ok(Some((items, rest)))
    } else {
        Ok(None)
    }
}

// Reads certname, environment, Puppet's version, the format and the configuration's version.
#[tactic(auto, unfolding(crate::specs::Changes::report_head_at))]
fn take_head(
    bytes: &[u8],
) -> Option<
    (
        &str,
        Option<&str>,
        Option<&str>,
        Option<u64>,
        Option<&str>,
        &[u8],
    ),
>
    ensures { Shows (λ x. ((x.0.now, (option_map (λ s. s.now) x.1, (option_map (λ s. s.now) x.2, (x.3, option_map (λ s. s.now) x.4)))), x.5.now))
        result (report_head_at bytes.now) }
{
    let (certname, rest) = take_certname(bytes)?;
    let (environment, rest) = take_optional_text(rest)?;
    let (puppet, rest) = take_optional_text(rest)?;
    let (format, rest) = take_optional_whole(rest)?;
    let (configuration, rest) = take_optional_text(rest)?;
    Some((certname, environment, puppet, format, configuration, rest))
}

// Reads when the run began and ended, and the producer's timestamp.
#[tactic(auto, unfolding(crate::specs::Changes::report_times_at))]
fn take_times(bytes: &[u8]) -> Option<(Option<Moment>, Option<Moment>, Moment, &[u8])>
    ensures { Shows (λ x. ((x.0, (x.1, x.2)), x.3.now)) result (report_times_at bytes.now) }
{
    let (start, rest) = match take_optional_moment(bytes) {
        None => return None,
        Some(read) => read,
    };
    let (end, rest) = match take_optional_moment(rest) {
        None => return None,
        Some(read) => read,
    };
    let (stamp, rest) = match take_moment(rest) {
        None => return None,
        Some(read) => read,
    };
    Some((start, end, stamp, rest))
}

// Reads producer, noop, status and the transaction's identifier.
#[tactic(auto, unfolding(crate::specs::Changes::report_run_at))]
fn take_run(
    bytes: &[u8],
) -> Option<
    (
        Option<&str>,
        Option<bool>,
        Option<&str>,
        Option<&str>,
        &[u8],
    ),
>
    ensures { Shows (λ x. ((option_map (λ s. s.now) x.0, (x.1, (option_map (λ s. s.now) x.2, option_map (λ s. s.now) x.3))), x.4.now)) result
        (report_run_at bytes.now) }
{
    let (producer, rest) = take_optional_text(bytes)?;
    let (noop, rest) = take_optional_bool(rest)?;
    let (status, rest) = take_optional_text(rest)?;
    let (transaction, rest) = take_optional_text(rest)?;
    Some((producer, noop, status, transaction, rest))
}

// Copies of certname, environment, Puppet's version and the configuration's version. Texts are copied by groups, since each copy
// that fails lets go of all that were made before.
fn own_head(
    alloc: Global,
    certname: &str,
    environment: Option<&str>,
    puppet: Option<&str>,
    configuration: Option<&str>,
) -> Result<(Text, Option<Text>, Option<Text>, Option<Text>), AllocError>
    ensures certname { IfOk result (λ x. x.0 ≡ certname.now) }
    ensures environment { IfOk result (λ x. x.1 ≡ option_map (λ s. s.now) environment.entry) }
    ensures puppet { IfOk result (λ x. x.2 ≡ option_map (λ s. s.now) puppet.entry) }
    ensures configuration { IfOk result (λ x. x.3 ≡ option_map (λ s. s.now) configuration.entry) }
{
    let certname = Text::from_str(alloc, certname)?;
    let environment = own_optional(alloc, environment)?;
    let puppet = own_optional(alloc, puppet)?;
    let configuration = own_optional(alloc, configuration)?;
    Ok((certname, environment, puppet, configuration))
}

// Copies of producer, status and the transaction's identifier.
fn own_run(
    alloc: Global,
    producer: Option<&str>,
    status: Option<&str>,
    transaction: Option<&str>,
) -> Result<(Option<Text>, Option<Text>, Option<Text>), AllocError>
    ensures producer { IfOk result (λ x. x.0 ≡ option_map (λ s. s.now) producer.entry) }
    ensures status { IfOk result (λ x. x.1 ≡ option_map (λ s. s.now) status.entry) }
    ensures transaction { IfOk result (λ x. x.2 ≡ option_map (λ s. s.now) transaction.entry) }
{
    let producer = own_optional(alloc, producer)?;
    let status = own_optional(alloc, status)?;
    let transaction = own_optional(alloc, transaction)?;
    Ok((producer, status, transaction))
}

#[tactic(auto, unfolding(crate::specs::Changes::report_at))]
pub(crate) fn take_report(
    alloc: Global,
    bytes: &[u8],
) -> Result<Option<(ReportChange, &[u8])>, AllocError>
    ensures { IfOk result (λ o. Shows (λ x. (x.0, x.1.now)) o (report_at bytes.now)) }
{
    let Some((certname, environment, puppet, format, configuration, rest)) = take_head(bytes) else {
        return Ok(None);
    };
    let Some((start_time, end_time, stamp, rest)) = take_times(rest) else {
        return Ok(None);
    };
    let Some((producer, noop, status, transaction, rest)) = take_run(rest) else {
        return Ok(None);
    };
    let Some((resources, rest)) = take_resources(alloc, rest)? else {
        return Ok(None);
    };
    let Some((logs, rest)) = take_logs(alloc, rest)? else {
        return Ok(None);
    };
    let Some((metrics, rest)) = take_metrics(alloc, rest)? else {
        return Ok(None);
    };
    let (certname, environment, puppet_version, configuration_version) = own_head(
        alloc,
        certname,
        environment,
        puppet,
        configuration,
    )?;
    let (producer, status, transaction_uuid) = own_run(alloc, producer, status, transaction)?;
    let change = ReportChange {
        certname,
        environment,
        puppet_version,
        report_format: format,
        configuration_version,
        start_time,
        end_time,
        stamp,
        producer,
        noop,
        status,
        transaction_uuid,
        resources,
        logs,
        metrics,
    };
    Ok(Some((change, rest)))
}
