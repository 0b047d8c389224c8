//! Reads one resource of a catalog.
ghost use Rattle.std.specs.Prelude.{◌≡◌, IfOk, IfSome};
ghost use Rattle.wire_fields.specs.text_spec.Json.{array, items_of};
ghost use Rattle.wire_fields.specs.json_tree.Tree.{json_of};
ghost use Rattle.wire_fields.specs.wire_spec.Table.{resource};
ghost use Rattle.wire_fields.specs.Answers.{Gives};
ghost use Rattle.wire_fields.specs.wire_spec.Counted.{IsCounted};
ghost use Rattle.wire_catalog.specs.InOrder.{resource_fields_of, resource_in_order};

use crate::tags::tags;
use std::alloc::Global;
use wire_fields::fleet_rows::{Field, Refusal, Resource};
use wire_fields::json_tree::{Items, Json, Members, Text};
use wire_fields::{
    WireFault, members, optional_bool, optional_items, optional_members, optional_text,
    optional_whole_number, outer, required_text,
};

// The fields as taken out of the object, before the first refusal is searched.
#[derive(Drop)]
struct ResourceFields {
    rtype: Result<Text, Refusal>,
    title: Result<Text, Refusal>,
    exported: Result<Option<bool>, Refusal>,
    file: Result<Option<Text>, Refusal>,
    line: Result<Option<u64>, Refusal>,
    tags: Result<Option<Items>, Refusal>,
    parameters: Result<Option<Members>, Refusal>,
}

/// The resource at this index of the list, or the first refusal. The order is: type, title, exported, file, line, the tags one by
/// one, parameters.
pub(crate) fn resource(alloc: Global, index: u32, json: Json) -> Result<Resource, WireFault>
    requires { IsCounted (json_of json) }
    ensures { Gives result (resource index (json_of json)) }
{
    let json = members(outer(index, Field::Resources), json)?;
    in_order(alloc, index, fields(index, json))
}

fn fields(index: u32, json: Members) -> ResourceFields
    ensures { result ≡ resource_fields_of index json }
{
    let mut json = json;
    let rtype = required_text(&mut json, outer(index, Field::Type));
    let title = required_text(&mut json, outer(index, Field::Title));
    let exported = optional_bool(&mut json, outer(index, Field::Exported));
    let file = optional_text(&mut json, outer(index, Field::File));
    let line = optional_whole_number(&mut json, outer(index, Field::Line));
    let tags = optional_items(&mut json, outer(index, Field::Tags));
    let parameters = optional_members(&mut json, outer(index, Field::Parameters));
    ResourceFields {
        rtype,
        title,
        exported,
        file,
        line,
        tags,
        parameters,
    }
}

// The resource, or the first refusal.
fn in_order(alloc: Global, index: u32, fields: ResourceFields) -> Result<Resource, WireFault>
    requires { IfOk fields.tags (λ o. IfSome o (λ js. IsCounted (array (items_of js)))) }
    ensures { Gives result (resource_in_order index fields) }
{
    Ok(Resource {
        rtype: fields.rtype?,
        title: fields.title?,
        exported: fields.exported?.unwrap_or(false),
        file: fields.file?,
        line: fields.line?,
        tags: tags(alloc, index, fields.tags?)?,
        parameters: fields.parameters?.unwrap_or(Members::new(alloc)),
    })
}
