//! Checks the events of a resource, which are kept as received.
ghost use Rattle.std.specs.Prelude.{◌≡◌, ◌<◌, ◌^◌, length};
ghost use Rattle.wire_fields.specs.json_tree.Tree.{json_of, jsons};
ghost use Rattle.wire_fields.specs.wire_spec.Table.{event, each_from};
ghost use Rattle.wire_fields.specs.Checks.{checked};
ghost use Rattle.wire_report.specs.InOrder.{event_fields};

use wire_fields::fleet_rows::{Field, Refusal};
use wire_fields::json_tree::{Json, Members};
use wire_fields::{
    check_optional_stamp, check_optional_text, check_required_text, inner, members_in,
};

/// Checks the events of the resource at this index, one by one.
pub(crate) fn check_events(index: u32, events: &[Json]) -> Result<(), Refusal>
    requires { length events.now < 2 ^ 32 }
    ensures { result ≡ checked (each_from 0 (event index) (jsons events.now)) }
{
    let mut within = 0;
    for json in events {
        check_event(index, within, json)?;
        within += 1;
    }
    Ok(())
}

fn check_event(index: u32, within: u32, json: &Json) -> Result<(), Refusal>
    ensures { result ≡ checked (event index within (json_of json.now)) }
{
    let json = members_in(inner(index, within, Field::Events), json)?;
    check_fields(index, within, json)
}

// Checks status, timestamp, property, message.
fn check_fields(index: u32, within: u32, json: &Members) -> Result<(), Refusal>
    ensures { result ≡ event_fields index within json.now }
{
    check_required_text(json, inner(index, within, Field::Status))?;
    check_optional_stamp(json, inner(index, within, Field::Timestamp))?;
    check_optional_text(json, inner(index, within, Field::Property))?;
    check_optional_text(json, inner(index, within, Field::Message))
}
