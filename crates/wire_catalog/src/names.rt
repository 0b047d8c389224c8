//! Finds a resource that repeats an earlier name.
ghost use Rattle.std.specs.Prelude.{◌≡◌, ◌<◌, ◌^◌, [], length, IfOk};
ghost use Rattle.wire_catalog.specs.Names.{again_from};

use crate::marks::are_resources_apart;
use std::alloc::{AllocError, Global};
use std::collections::BTreeSet;
use wire_fields::fleet_rows::Resource;

/// The index of the first resource that repeats the type and title of an earlier one.
#[tactic(auto, using(crate::proofs::ApartLaws::none_again))]
pub(crate) fn first_again(alloc: Global, resources: &[Resource]) -> Result<Option<u32>, AllocError>
    requires { length resources.now < 2 ^ 32 }
    ensures { IfOk result (λ o. o ≡ again_from [] 0 resources.now) }
{
    if are_resources_apart(alloc, resources)? {
        Ok(None)
    } else {
        first_in_set(alloc, resources)
    }
}

// The same by a set of the names so far.
fn first_in_set(alloc: Global, resources: &[Resource]) -> Result<Option<u32>, AllocError>
    requires { length resources.now < 2 ^ 32 }
    ensures { IfOk result (λ o. o ≡ again_from [] 0 resources.now) }
{
    let mut seen = BTreeSet::new(alloc);
    let mut index = 0;
    for resource in resources {
        if !seen.insert((resource.rtype.as_str(), resource.title.as_str()))? {
            return Ok(Some(index));
        }
        index += 1;
    }
    Ok(None)
}
