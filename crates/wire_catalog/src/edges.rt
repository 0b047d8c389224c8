//! Reads the edges of a catalog.
ghost use Rattle.std.specs.Prelude.{◌≡◌};
ghost use Rattle.wire_fields.specs.text_spec.Json.{array, items_of};
ghost use Rattle.wire_fields.specs.wire_spec.Table.{edge, each_from};
ghost use Rattle.wire_fields.specs.Answers.{Gives, GivesBy};
ghost use Rattle.wire_fields.specs.wire_spec.Counted.{IsCounted};
ghost use Rattle.wire_catalog.specs.InOrder.{edges_of};

use crate::distinct::{are_new, kept};
use crate::edge::edge;
use std::alloc::Global;
use wire_fields::WireFault;
use wire_fields::fleet_rows::{Edge, Edges};
use wire_fields::json_tree::Items;

/// The edges of the list, each once at its first position, or the first refusal.
pub(crate) fn edges(alloc: Global, items: Items) -> Result<Edges, WireFault>
    requires { IsCounted (array (items_of items)) }
    ensures { Gives result (edges_of items) }
{
    let all = each_edge(alloc, items)?;
    let new = are_new(alloc, all.as_slice())?;
    Ok(kept(alloc, all, new)?)
}

fn each_edge(alloc: Global, items: Items) -> Result<Vec<Edge>, WireFault>
    requires { IsCounted (array (items_of items)) }
    ensures { GivesBy (λ v. v.items) result (each_from 0 edge items) }
{
    let list = items.into_vec();
    let mut done = Vec::with_capacity(alloc, list.len())?;
    let mut index = 0;
    for item in list {
        done.push(edge(index, item)?)?;
        index += 1;
    }
    Ok(done)
}
