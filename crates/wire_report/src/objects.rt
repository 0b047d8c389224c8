//! Reads logs and metrics: lists of objects, which are kept as received.
ghost use Rattle.std.specs.Prelude.{◌≡◌, ◌<◌, ◌^◌, length};
ghost use Rattle.wire_fields.specs.json_tree.Tree.{jsons};
ghost use Rattle.wire_fields.specs.wire_spec.Table.{object_in, each_from};
ghost use Rattle.wire_fields.specs.Checks.{checked};
ghost use Rattle.wire_report.specs.InOrder.{list_of, IfCounted};

use std::alloc::Global;
use wire_fields::fleet_rows::{Field, Refusal};
use wire_fields::json_tree::{Items, Json};
use wire_fields::{members_in, outer};

/// The objects of the field's list, moved as received, or the first refusal. An absent list gives none.
pub(crate) fn objects(
    alloc: Global,
    field: Field,
    taken: Result<Option<Items>, Refusal>,
) -> Result<Items, Refusal>
    requires { IfCounted taken }
    ensures { result ≡ list_of (object_in field) taken }
{
    match taken? {
        Some(items) => {
            check_objects(field, items.as_slice())?;
            Ok(items)
        }
        None => Ok(Items::new(alloc)),
    }
}

fn check_objects(field: Field, values: &[Json]) -> Result<(), Refusal>
    requires { length values.now < 2 ^ 32 }
    ensures { result ≡ checked (each_from 0 (object_in field) (jsons values.now)) }
{
    let mut index = 0;
    for json in values {
        members_in(outer(index, field), json)?;
        index += 1;
    }
    Ok(())
}
