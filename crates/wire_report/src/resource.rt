//! Reads the resources of a report, which are kept as received.
ghost use Rattle.std.specs.Prelude.{◌≡◌};
ghost use Rattle.wire_fields.specs.text_spec.Json.{array, items_of, object, members_of};
ghost use Rattle.wire_fields.specs.json_tree.Tree.{json_of, jsons};
ghost use Rattle.wire_fields.specs.wire_spec.Table.{report_resource, each_from};
ghost use Rattle.wire_fields.specs.Checks.{checked};
ghost use Rattle.wire_fields.specs.wire_spec.Counted.{IsCounted};
ghost use Rattle.wire_report.specs.InOrder.{resource_fields, list_of, IfCounted};

use crate::event::check_events;
use std::alloc::Global;
use wire_fields::fleet_rows::{Field, Refusal};
use wire_fields::json_tree::{Items, Json, Members};
use wire_fields::{check_required_text, members_in, optional_items_in, outer};

/// The resources of a report, moved as received, or the first refusal. An absent list gives none.
pub(crate) fn resources(
    alloc: Global,
    taken: Result<Option<Items>, Refusal>,
) -> Result<Items, Refusal>
    requires { IfCounted taken }
    ensures { result ≡ list_of report_resource taken }
{
    match taken? {
        Some(items) => {
            check_resources(items.as_slice())?;
            Ok(items)
        }
        None => Ok(Items::new(alloc)),
    }
}

fn check_resources(resources: &[Json]) -> Result<(), Refusal>
    requires { IsCounted (array (items_of (jsons resources.now))) }
    ensures { result ≡ checked (each_from 0 report_resource (jsons resources.now)) }
{
    let mut index = 0;
    for json in resources {
        check_resource(index, json)?;
        index += 1;
    }
    Ok(())
}

/// Checks the resource at this index with its events, without changing it.
pub fn check_resource(index: u32, json: &Json) -> Result<(), Refusal>
    requires { IsCounted (json_of json.now) }
    ensures { result ≡ checked (report_resource index (json_of json.now)) }
{
    let json = members_in(outer(index, Field::Resources), json)?;
    check_fields(index, json)
}

// Checks the type, the title, and the events one by one.
fn check_fields(index: u32, json: &Members) -> Result<(), Refusal>
    requires { IsCounted (object (members_of json.now)) }
    ensures { result ≡ resource_fields index json.now }
{
    check_required_text(json, outer(index, Field::ResourceType))?;
    check_required_text(json, outer(index, Field::ResourceTitle))?;
    match optional_items_in(json, outer(index, Field::Events))? {
        Some(events) => check_events(index, events.as_slice()),
        None => Ok(()),
    }
}
