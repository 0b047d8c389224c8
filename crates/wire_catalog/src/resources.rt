//! Reads the resources of a catalog.
//!
//! A resource that repeats a name is refused before any later resource is. So the resources before the first one with refused
//! fields are read first. Then the first repeated name among them is searched. The names are borrowed from the resources, so no
//! text is copied.
ghost use Rattle.std.specs.Prelude.{◌≡◌, Ok};
ghost use Rattle.wire_fields.specs.text_spec.Json.{array, items_of};
ghost use Rattle.wire_fields.specs.wire_spec.Table.{resources_from};
ghost use Rattle.wire_fields.specs.Answers.{Gives};
ghost use Rattle.wire_fields.specs.wire_spec.Counted.{IsCounted};
ghost use Rattle.std.specs.Prelude.{[]};
ghost use Rattle.wire_catalog.specs.Names.{front_of};

use crate::names::first_again;
use crate::resource::resource;
use std::alloc::Global;
use wire_fields::WireFault;
use wire_fields::fleet_rows::{Refusal, Resources};
use wire_fields::json_tree::Items;

/// The resources of the list, or the first refusal.
pub(crate) fn resources(alloc: Global, items: Items) -> Result<Resources, WireFault>
    requires { IsCounted (array (items_of items)) }
    ensures { Gives result (resources_from [] 0 items) }
{
    let (front, refused) = front(alloc, items)?;
    if let Some(index) = first_again(alloc, front.as_slice())? {
        return Err(WireFault::Refused(Refusal::DuplicateResource { index }));
    }
    match refused {
        Some(refusal) => Err(WireFault::Refused(refusal)),
        None => Ok(front),
    }
}

// The resources before the first one whose own fields are refused, and that refusal.
fn front(alloc: Global, items: Items) -> Result<(Resources, Option<Refusal>), WireFault>
    requires { IsCounted (array (items_of items)) }
    ensures { Gives result (Ok (front_of 0 items)) }
{
    let list = items.into_vec();
    let mut done = Resources::with_capacity(alloc, list.len())?;
    let mut index = 0;
    for item in list {
        match resource(alloc, index, item) {
            Ok(resource) => done.push(resource)?,
            Err(WireFault::Refused(refusal)) => return Ok((done, Some(refusal))),
            Err(WireFault::Memory) => return Err(WireFault::Memory),
        }
        index += 1;
    }
    Ok((done, None))
}
