//! Finds equal edges, of which the first is kept.
//!
//! If their marks tell all edges apart, every edge is new. Otherwise a set holds the names of the edges so far. It borrows them
//! from the edges, so no text is copied. New edges are flagged first, and moved once the set is dropped.
ghost use Rattle.std.specs.Prelude.{◌≡◌, [], length, IfOk};
ghost use Rattle.wire_catalog.specs.Distinct.{news, kept, IsEdgeKey};

use crate::edge::relationship_name;
use crate::marks::are_edges_apart;
use std::alloc::{AllocError, Global};
use std::collections::BTreeSet;
use wire_fields::fleet_rows::{Edge, Edges};

/// For each edge, whether it differs from all edges before it.
#[tactic(auto, using(crate::proofs::ApartLaws::all_new))]
pub(crate) fn are_new(alloc: Global, edges: &[Edge]) -> Result<Vec<bool>, AllocError>
    ensures { IfOk result (λ v. v.items ≡ news [] edges.now) }
{
    if are_edges_apart(alloc, edges)? {
        vec![in alloc; true; edges.len()]
    } else {
        new_to_set(alloc, edges)
    }
}

// The same by a set of the names so far.
fn new_to_set(alloc: Global, edges: &[Edge]) -> Result<Vec<bool>, AllocError>
    ensures { IfOk result (λ v. v.items ≡ news [] edges.now) }
{
    let mut seen = BTreeSet::new(alloc);
    let mut new = Vec::new(alloc);
    for edge in edges {
        new.push(seen.insert(edge_key(edge))?)?;
    }
    Ok(new)
}

/// The texts by which edges are compared.
pub fn edge_key(edge: &Edge) -> (&str, &str, &str, &str, &str)
    ensures { IsEdgeKey edge.now (result.0.now, result.1.now, result.2.now, result.3.now, result.4.now) }
{
    (
        edge.source.rtype.as_str(),
        edge.source.title.as_str(),
        edge.target.rtype.as_str(),
        edge.target.title.as_str(),
        relationship_name(edge.relationship),
    )
}

/// The edges that are new.
pub(crate) fn kept(alloc: Global, edges: Vec<Edge>, new: Vec<bool>) -> Result<Edges, AllocError>
    requires { length new.items ≡ length edges.items }
    ensures { IfOk result (λ es. es ≡ kept edges.items new.items) }
{
    let mut done = Edges::with_capacity(alloc, edges.len())?;
    let mut at = 0;
    for edge in edges {
        if new[at] {
            done.push(edge)?;
        }
        at += 1;
    }
    Ok(done)
}
