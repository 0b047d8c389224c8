//! Tells names apart by a mark of each.
//!
//! A mark is a 64-bit number computed from the bytes of a name. If all marks differ, all names do. This is the usual case, and
//! needs no map. Equal marks prove nothing, so names are compared then.
ghost use Rattle.std.specs.Prelude.{◌≡◌, ◌<◌, ◌+◌, ◌*◌, ◌^◌, IfOk, IsTrue, nat_eq};
ghost use Rattle.std.specs.List.{IsDistinct};
ghost use Rattle.wire_fields.specs.wire_spec.Table.{is_edge, has_name_of};
ghost use Rattle.wire_catalog.specs.Marks.{next_mark, mark_each, mark_on, resource_mark, edge_mark, rise, rise_from};

use crate::edge::relationship_name;
use std::alloc::{AllocError, Global};
use wire_fields::fleet_rows::{Edge, Resource};
use wire_fields::json_tree::Text;

// The factor is odd, so a step loses nothing of the mark before it.
const FACTOR: u64 = 0x9e37_79b9_7f4a_7c15;

/// Whether marks show that all resources differ in type or title. It takes O(n log n) steps and a list of marks. A false answer
/// proves nothing.
pub fn are_resources_apart(alloc: Global, resources: &[Resource]) -> Result<bool, AllocError>
    ensures { IfOk result (λ b. IsTrue b → IsDistinct has_name_of resources.now) }
{
    let mut marks = Vec::with_capacity(alloc, resources.len())?;
    for resource in resources {
        marks.push(resource_mark(resource))?;
    }
    Ok(differ(marks))
}

/// Whether marks show that all edges are different. It takes O(n log n) steps and a list of marks. A false answer proves nothing.
pub fn are_edges_apart(alloc: Global, edges: &[Edge]) -> Result<bool, AllocError>
    ensures { IfOk result (λ b. IsTrue b → IsDistinct is_edge edges.now) }
{
    let mut marks = Vec::with_capacity(alloc, edges.len())?;
    for edge in edges {
        marks.push(edge_mark(edge))?;
    }
    Ok(differ(marks))
}

fn resource_mark(resource: &Resource) -> u64
    ensures { result ≡ resource_mark resource.now }
{
    let mark = text_on(0, &resource.rtype);
    text_on(mark, &resource.title)
}

fn edge_mark(edge: &Edge) -> u64
    ensures { result ≡ edge_mark edge.now }
{
    let mark = text_on(0, &edge.source.rtype);
    let mark = text_on(mark, &edge.source.title);
    let mark = text_on(mark, &edge.target.rtype);
    let mark = text_on(mark, &edge.target.title);
    mark_on(mark, relationship_name(edge.relationship).as_bytes())
}

fn text_on(mark: u64, text: &Text) -> u64
    ensures { result ≡ mark_on mark text.now }
{
    mark_on(mark, text.as_str().as_bytes())
}

// Four bytes at a time, and the rest one by one.
fn mark_on(mark: u64, bytes: &[u8]) -> u64
    ensures { result ≡ mark_on mark bytes.now }
{
    let mut mark = mark;
    let mut left = bytes;
    'fours: while let [a, b, c, d, rest @ ..] = left {
        mark = next_mark(mark, four(*a, *b, *c, *d));
        left = rest;
    }
    mark_each(mark, left)
}

fn mark_each(mark: u64, bytes: &[u8]) -> u64
    ensures { result ≡ mark_each mark bytes.now }
{
    let mut mark = mark;
    for byte in bytes {
        mark = next_mark(mark, *byte as u64);
    }
    mark
}

#[inline(always)]
fn four(a: u8, b: u8, c: u8, d: u8) -> u64
    ensures { result ≡ a + b * 256 + c * 65536 + d * 16777216 }
{
    a as u64 + b as u64 * 256 + c as u64 * 65536 + d as u64 * 16777216
}

#[inline(always)]
fn next_mark(mark: u64, word: u64) -> u64
    ensures { result ≡ next_mark mark word }
{
    mark.wrapping_mul(FACTOR).wrapping_add(word)
}

// Whether all marks are different.
fn differ(marks: Vec<u64>) -> bool
    ensures { IsTrue result → IsDistinct nat_eq marks.items }
{
    let mut marks = marks;
    marks.sort_unstable();
    rise(marks.as_slice())
}

fn rise(marks: &[u64]) -> bool
    ensures { result ≡ rise marks.now }
{
    match marks {
        [] => true,
        [first, rest @ ..] => rise_from(*first, rest),
    }
}

fn rise_from(first: u64, marks: &[u64]) -> bool
    ensures { result ≡ rise_from first marks.now }
{
    let mut last = first;
    for mark in marks {
        if last >= *mark {
            return false;
        }
        last = *mark;
    }
    true
}
