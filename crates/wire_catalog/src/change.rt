//! Reads a node's catalog from a payload's object.
ghost use Rattle.std.specs.Prelude.{◌≡◌, IfOk};
ghost use Rattle.wire_fields.specs.text_spec.Json.{object, array, members_of, items_of};
ghost use Rattle.wire_fields.specs.wire_spec.Table.{object_change};
ghost use Rattle.wire_fields.specs.Answers.{Gives};
ghost use Rattle.wire_fields.specs.wire_spec.Counted.{IsCounted};
ghost use Rattle.wire_catalog.specs.InOrder.{fields_of, change_in_order};
ghost use Rattle.wire_fields.specs.fleet_rows.declared.command.Kind.TheVariants as kind;

use crate::edges::edges;
use crate::resources::resources;
use std::alloc::Global;
use wire_fields::fleet_rows::{CatalogChange, Change, Field, Refusal};
use wire_fields::json_tree::{Items, Members, Text};
use wire_fields::stamp_time::Moment;
use wire_fields::{
    WireFault, optional_text, required_items, required_nonempty_text, required_stamp,
    required_text, top,
};

// The fields as taken out of the object, before the first refusal is searched.
#[derive(Drop)]
struct CatalogFields {
    certname: Result<Text, Refusal>,
    version: Result<Text, Refusal>,
    environment: Result<Option<Text>, Refusal>,
    transaction_uuid: Result<Option<Text>, Refusal>,
    catalog_uuid: Result<Option<Text>, Refusal>,
    code_id: Result<Option<Text>, Refusal>,
    job_id: Result<Option<Text>, Refusal>,
    stamp: Result<Moment, Refusal>,
    producer: Result<Option<Text>, Refusal>,
    edges: Result<Items, Refusal>,
    resources: Result<Items, Refusal>,
}

/// The catalog in the object, or the first refusal. The order is: certname, version, environment, transaction_uuid, catalog_uuid,
/// code_id, job_id, producer_timestamp, producer, the edges one by one, the resources one by one. A resource that repeats an
/// earlier type and title is refused after its own fields are checked. Of equal edges, the first is kept. Unknown keys are
/// ignored. It moves the values that it keeps.
pub fn catalog(alloc: Global, json: Members) -> Result<Change, WireFault>
    // 32-bit indices reach each element of each list.
    requires { IsCounted (object (members_of json)) }
    ensures { Gives result (object_change kind.Catalog json) }
{
    in_order(alloc, fields(json))
}

fn fields(json: Members) -> CatalogFields
    ensures { result ≡ fields_of json }
{
    let mut json = json;
    let certname = required_nonempty_text(&mut json, top(Field::Certname));
    let version = required_text(&mut json, top(Field::Version));
    let environment = optional_text(&mut json, top(Field::Environment));
    let transaction_uuid = optional_text(&mut json, top(Field::TransactionUuid));
    let catalog_uuid = optional_text(&mut json, top(Field::CatalogUuid));
    let code_id = optional_text(&mut json, top(Field::CodeId));
    let job_id = optional_text(&mut json, top(Field::JobId));
    let stamp = required_stamp(&mut json, top(Field::ProducerTimestamp));
    let producer = optional_text(&mut json, top(Field::Producer));
    let edges = required_items(&mut json, top(Field::Edges));
    let resources = required_items(&mut json, top(Field::Resources));
    CatalogFields {
        certname,
        version,
        environment,
        transaction_uuid,
        catalog_uuid,
        code_id,
        job_id,
        stamp,
        producer,
        edges,
        resources,
    }
}

// The change, or the first refusal.
fn in_order(alloc: Global, fields: CatalogFields) -> Result<Change, WireFault>
    requires edges { IfOk fields.edges (λ js. IsCounted (array (items_of js))) }
    requires resources { IfOk fields.resources (λ js. IsCounted (array (items_of js))) }
    ensures { Gives result (change_in_order fields) }
{
    Ok(Change::Catalog(CatalogChange {
        certname: fields.certname?,
        version: fields.version?,
        environment: fields.environment?,
        transaction_uuid: fields.transaction_uuid?,
        catalog_uuid: fields.catalog_uuid?,
        code_id: fields.code_id?,
        job_id: fields.job_id?,
        stamp: fields.stamp?,
        producer: fields.producer?,
        edges: edges(alloc, fields.edges?)?,
        resources: resources(alloc, fields.resources?)?,
    }))
}
