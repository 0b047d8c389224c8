//! Sorts references to the members of an object by key.
ghost use Rattle.std.specs.Prelude.{◌≡◌, ◌++◌, ◌≤◌, IfOk, OnOk, All, map};
ghost use Rattle.text_spec.specs.Json.{levels, members_of, HasDistinctKeys};
ghost use Rattle.json_tree.specs.Tree.{json_of, pairs};
ghost use Rattle.json_tree.specs.Arranged.{pair_by};
ghost use Rattle.json_tree.specs.InOrder.{in_key_order};

use crate::canonical_text::sort_part;
use crate::text::Text;
use crate::tree::{Json, Members};
use std::alloc::{AllocError, Global};

impl Members {
    /// References to the members, sorted by the bytes of their keys. Keys and values aren't copied.
    pub fn in_key_order(&self, alloc: Global) -> Result<Vec<&(Text, Json)>, AllocError>
        ensures { IfOk result (λ v. members_of (map (pair_by (λ j. j)) v.items) ≡ in_key_order self.now) }
    {
        sorted(alloc, self.list.as_slice())
    }
}

#[tactic(auto, using(crate::proofs::ArrangedLaws::in_key_order_lem))]
fn sorted(alloc: Global, list: &[(Text, Json)]) -> Result<Vec<&(Text, Json)>, AllocError>
    requires { HasDistinctKeys (pairs list.now) }
    ensures { IfOk result (λ v. members_of (map (pair_by (λ j. j)) v.items) ≡ in_key_order (pairs list.now)) }
{
    let mut order = references(alloc, list)?;
    sort_part(order.as_mut_slice());
    Ok(order)
}

fn references(alloc: Global, list: &[(Text, Json)]) -> Result<Vec<&(Text, Json)>, AllocError>
    ensures { IfOk result (λ v. map (λ m. m.now) v.items ≡ list.now) }
{
    let mut order = Vec::with_capacity(alloc, list.len())?;
    for member in list {
        order.push(member)?;
    }
    Ok(order)
}
