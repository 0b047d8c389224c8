//! Checks that edges and names of resources are distinct. It compares marks of the names first. If these don't tell all apart, it
//! uses an ordered set of borrowed names. Either takes n log n steps.
ghost use Rattle.std.specs.Prelude.{◌≡◌, [], IfOk};
ghost use Rattle.wire_catalog.specs.wire_spec.Table.{is_edge, has_name_of};
ghost use Rattle.change_reader.specs.Together.{are_new};

use std::alloc::{AllocError, Global};
use std::collections::BTreeSet;
use wire_catalog::fleet_rows::{Edge, Resource};
use wire_catalog::{are_edges_apart, are_resources_apart, edge_key};

/// Whether all edges are distinct.
#[tactic(auto, using(crate::proofs::Together::edges_apart))]
pub(crate) fn are_distinct_edges(alloc: Global, edges: &[Edge]) -> Result<bool, AllocError>
    ensures { IfOk result (λ b. b ≡ are_new is_edge [] edges.now) }
{
    if are_edges_apart(alloc, edges)? {
        Ok(true)
    } else {
        edges_in_set(alloc, edges)
    }
}

// The same check, with a set of the edges so far.
fn edges_in_set(alloc: Global, edges: &[Edge]) -> Result<bool, AllocError>
    ensures { IfOk result (λ b. b ≡ are_new is_edge [] edges.now) }
{
    let mut seen = BTreeSet::new(alloc);
    for edge in edges {
        if !seen.insert(edge_key(edge))? {
            return Ok(false);
        }
    }
    Ok(true)
}

/// Whether all resources have distinct types and titles.
#[tactic(auto, using(crate::proofs::Together::resources_apart))]
pub(crate) fn are_distinct_resources(
    alloc: Global,
    resources: &[Resource],
) -> Result<bool, AllocError>
    ensures { IfOk result (λ b. b ≡ are_new has_name_of [] resources.now) }
{
    if are_resources_apart(alloc, resources)? {
        Ok(true)
    } else {
        resources_in_set(alloc, resources)
    }
}

// The same check, with a set of the names so far.
fn resources_in_set(alloc: Global, resources: &[Resource]) -> Result<bool, AllocError>
    ensures { IfOk result (λ b. b ≡ are_new has_name_of [] resources.now) }
{
    let mut seen = BTreeSet::new(alloc);
    for resource in resources {
        if !seen.insert((resource.rtype.as_str(), resource.title.as_str()))? {
            return Ok(false);
        }
    }
    Ok(true)
}
