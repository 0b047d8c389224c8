//! Keeps orders of rows by short indices.
ghost use Rattle.std.specs.Prelude.{◌≡◌, ◌<◌, length, slice_get, Some, IfOk, IfSome};
ghost use Rattle.packed_shown.specs.Orders.{places_of};

use std::alloc::{AllocError, Global};
use std::marker::Model;

/// The indices of rows, in their order. Contracts see the list of the indices.
pub struct PackedOrder {
    held: Held,
}

// Written by hand, so that callers who drop an order needn't know how it is stored.
impl Drop for PackedOrder {
    fn drop(self) {
        let PackedOrder { held } = self;
        drop(held);
    }
}

impl Model for PackedOrder {
    ghost use Rattle.std.specs.Prelude.{ℕ, List};

    ghost Value = { List ℕ };

    ghost use Rattle.packed_shown.specs.Orders.{places_of};

    ghost view = { λ a. places_of a.held };
}

#[derive(Drop)]
enum Held {
    Short(Vec<u16>),
    Long(Vec<usize>),
}

// The indices in two bytes each, or None if one is too great for that.
fn shortened(alloc: Global, places: &[usize]) -> Result<Option<Vec<u16>>, AllocError>
    ensures { IfOk result (λ o. IfSome o (λ v. v.items ≡ places.now)) }
{
    let mut short = Vec::with_capacity(alloc, places.len())?;
    'shortening: for place in places {
        if *place > 65_535 {
            return Ok(None);
        }
        short.push(*place as u16)?;
    }
    Ok(Some(short))
}

fn widened(alloc: Global, places: &[u16]) -> Result<Vec<usize>, AllocError>
    ensures { IfOk result (λ v. v.items ≡ places.now) }
{
    let mut wide = Vec::with_capacity(alloc, places.len())?;
    'widening: for place in places {
        wide.push(*place as usize)?;
    }
    Ok(wide)
}

impl Held {
    fn of(alloc: Global, places: &[usize]) -> Result<Held, AllocError>
        ensures { IfOk result (λ held. places_of held ≡ places.now) }
    {
        match shortened(alloc, places)? {
            Some(short) => Ok(Held::Short(short)),
            None => Ok(Held::Long(places.to_vec(alloc)?)),
        }
    }

    fn len(&self) -> usize
        ensures { result ≡ length (places_of self.now) }
    {
        match self {
            Held::Short(places) => places.len(),
            Held::Long(places) => places.len(),
        }
    }

    fn at(&self, at: usize) -> usize
        requires { at < length (places_of self.now) }
        ensures { slice_get (places_of self.now) at ≡ Some result }
    {
        match self {
            Held::Short(places) => places[at] as usize,
            Held::Long(places) => places[at],
        }
    }

    fn unpack(&self, alloc: Global) -> Result<Vec<usize>, AllocError>
        ensures { IfOk result (λ v. v.items ≡ places_of self.now) }
    {
        match self {
            Held::Short(places) => widened(alloc, places.as_slice()),
            Held::Long(places) => places.as_slice().to_vec(alloc),
        }
    }
}

impl PackedOrder {
    /// The order with these indices.
    pub fn of(alloc: Global, places: &[usize]) -> Result<PackedOrder, AllocError>
        ensures { IfOk result (λ order. order ≡ places.now) }
    {
        let held = Held::of(alloc, places)?;
        Ok(PackedOrder { held })
    }

    /// The number of indices.
    pub fn len(&self) -> usize
        ensures { result ≡ length self.now }
    {
        self.held.len()
    }

    /// The index of the row at this place in the order.
    pub fn at(&self, at: usize) -> usize
        requires { at < length self.now }
        ensures { slice_get self.now at ≡ Some result }
    {
        self.held.at(at)
    }

    /// The indices as a list.
    pub fn unpack(&self, alloc: Global) -> Result<Vec<usize>, AllocError>
        ensures { IfOk result (λ places. places.items ≡ self.now) }
    {
        self.held.unpack(alloc)
    }
}
