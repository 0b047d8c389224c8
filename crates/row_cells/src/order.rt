//! Sorts facts, resources and edges into the order of their rows.
//!
//! The sorted items are references paired with their indices, so no text is copied. The sort is stable, so its order is the
//! definition's for every list, even one with equal items.
ghost use Rattle.std.specs.Prelude.{◌≡◌, ◌<◌, length, IfOk, All, Some, map, slice_get};
ghost use Rattle.std.specs.Ordering.{ordering_then};
ghost use Rattle.table_spec.specs.text_spec.Json.{members_list};
ghost use Rattle.table_spec.specs.text_spec.Compact.{text_cmp};
ghost use Rattle.table_spec.specs.json_tree.Tree.{json_of};
ghost use Rattle.table_spec.specs.wire_spec.Table.{relationship_name};
ghost use Rattle.table_spec.specs.history_spec.Facts.{by_name};
ghost use Rattle.table_spec.specs.Sorted.{sorted_by, resource_cmp, edge_cmp};
ghost use Rattle.row_cells.specs.Placed.{name_cmp, end_cmp, member_at};

use crate::relationship::relationship_name;
use std::alloc::{AllocError, Global};
use std::cmp::Ordering;
use table_spec::fleet_rows::{Edge, Resource, ResourceName};
use table_spec::json_tree::{Json, Members, Text};

/// The indices of the facts, sorted by name.
pub fn fact_order(alloc: Global, members: &Members) -> Result<Vec<usize>, AllocError>
    ensures { IfOk result (λ v. map (slice_get members.now) v.items ≡ map Some (members_list (by_name members.now))) }
{
    let mut order = numbered_members(alloc, members)?;
    order.sort_by(|a, b| fact_cmp(a, b))?;
    member_places(alloc, order.as_slice())
}

/// The indices of the resources, sorted by type, then by title.
pub fn resource_order(alloc: Global, resources: &[Resource]) -> Result<Vec<usize>, AllocError>
    ensures { IfOk result (λ v. map (slice_get resources.now) v.items ≡ map Some (sorted_by resource_cmp resources.now)) }
{
    let mut order = numbered(alloc, resources)?;
    order.sort_by(|a, b| resource_cmp(a.1, b.1))?;
    places(alloc, order.as_slice())
}

/// The indices of the edges, sorted by source, target and relationship.
pub fn edge_order(alloc: Global, edges: &[Edge]) -> Result<Vec<usize>, AllocError>
    ensures { IfOk result (λ v. map (slice_get edges.now) v.items ≡ map Some (sorted_by edge_cmp edges.now)) }
{
    let mut order = numbered(alloc, edges)?;
    order.sort_by(|a, b| edge_cmp(a.1, b.1))?;
    places(alloc, order.as_slice())
}

/// References to the items at these indices, in this order.
pub(crate) fn in_order<'a, T>(
    alloc: Global,
    list: &'a [T],
    places: &[usize],
) -> Result<Vec<&'a T>, AllocError>
    requires { All (λ k. k < length list.now) places.now }
    ensures { IfOk result (λ v. map (λ x. Some x.now) v.items ≡ map (slice_get list.now) places.now) }
{
    let mut picked = Vec::with_capacity(alloc, places.len())?;
    for place in places {
        picked.push(&list[*place])?;
    }
    Ok(picked)
}

fn numbered<T>(alloc: Global, list: &[T]) -> Result<Vec<(usize, &T)>, AllocError>
    ensures items { IfOk result (λ v. map (λ p. p.1.now) v.items ≡ list.now) }
    ensures places { IfOk result (λ v. All (λ p. slice_get list.now p.0 ≡ Some p.1.now) v.items) }
{
    let mut order = Vec::with_capacity(alloc, list.len())?;
    for at in 0..list.len() {
        order.push((at, &list[at]))?;
    }
    Ok(order)
}

fn places<T>(alloc: Global, list: &[(usize, &T)]) -> Result<Vec<usize>, AllocError>
    ensures { IfOk result (λ v. v.items ≡ map (λ p. p.0) list.now) }
{
    let mut order = Vec::with_capacity(alloc, list.len())?;
    for item in list {
        order.push(item.0)?;
    }
    Ok(order)
}

// The members paired with their indices.
fn numbered_members(
    alloc: Global,
    members: &Members,
) -> Result<Vec<(usize, &Text, &Json)>, AllocError>
    ensures items { IfOk result (λ v. map member_at v.items ≡ members.now) }
    ensures places { IfOk result (λ v. All (λ p. slice_get members.now p.0 ≡ Some (member_at p)) v.items) }
{
    let mut order = Vec::with_capacity(alloc, members.len())?;
    for at in 0..members.len() {
        let (name, value) = members.pair(at);
        order.push((at, name, value))?;
    }
    Ok(order)
}

fn member_places(alloc: Global, list: &[(usize, &Text, &Json)]) -> Result<Vec<usize>, AllocError>
    ensures { IfOk result (λ v. v.items ≡ map (λ p. p.0) list.now) }
{
    let mut order = Vec::with_capacity(alloc, list.len())?;
    for item in list {
        order.push(item.0)?;
    }
    Ok(order)
}

fn fact_cmp(a: &(usize, &Text, &Json), b: &(usize, &Text, &Json)) -> Ordering
    ensures { result ≡ name_cmp (member_at a.now) (member_at b.now) }
{
    a.1.as_str().cmp(b.1.as_str())
}

fn resource_cmp(a: &Resource, b: &Resource) -> Ordering
    ensures { result ≡ resource_cmp a.now b.now }
{
    pair_cmp((&a.rtype, &a.title), (&b.rtype, &b.title))
}

fn edge_cmp(a: &Edge, b: &Edge) -> Ordering
    ensures { result ≡ edge_cmp a.now b.now }
{
    match end_cmp(&a.source, &b.source) {
        Ordering::Equal => match end_cmp(&a.target, &b.target) {
            Ordering::Equal => {
                relationship_name(a.relationship).cmp(relationship_name(b.relationship))
            }
            unequal => unequal,
        },
        unequal => unequal,
    }
}

fn end_cmp(a: &ResourceName, b: &ResourceName) -> Ordering
    ensures { result ≡ end_cmp a.now b.now }
{
    pair_cmp((&a.rtype, &a.title), (&b.rtype, &b.title))
}

// Compares the first texts, then the second.
fn pair_cmp(a: (&Text, &Text), b: (&Text, &Text)) -> Ordering
    ensures { result ≡ ordering_then (text_cmp a.entry.0.now b.entry.0.now) (text_cmp a.entry.1.now b.entry.1.now) }
{
    match a.0.as_str().cmp(b.0.as_str()) {
        Ordering::Equal => a.1.as_str().cmp(b.1.as_str()),
        unequal => unequal,
    }
}
