//! Moves the items out of an array, or into a list of exact size.
ghost use Rattle.std.specs.Prelude.{◌≡◌, [], IfOk};
ghost use Rattle.json_tree.specs.Tree.{jsons};

use crate::tree::{Items, Json};
use std::alloc::{AllocError, Global};

impl Items {
    /// The items in their order. They are moved, not copied.
    pub fn into_vec(self) -> Vec<Json>
        ensures { jsons result.items ≡ self }
    {
        self.list
    }

    /// The items, moved into a new list of exact size, and the old list, now empty.
    #[inline]
    pub fn fitted(self, alloc: Global) -> Result<(Items, Items), AllocError>
        ensures items { IfOk result (λ r. r.0 ≡ self) }
        ensures room { IfOk result (λ r. r.1 ≡ []) }
    {
        let mut room = self.list;
        let mut list = Vec::with_capacity(alloc, room.len())?;
        list.append(&mut room)?;
        Ok((Items { list }, Items { list: room }))
    }

    /// Drops the items.
    pub fn clear(&mut self)
        ensures { self.new ≡ [] }
    {
        self.list.clear();
    }
}
