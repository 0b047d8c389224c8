//! The memory of one entry, taken before the entry is put into a tree.
ghost use Rattle.std.specs.Prelude.{◌≡◌, ◌<◌, [], ◌∷◌, ◌++◌, length, IfOk};
ghost use Rattle.std.specs.List.{AllByRecursion};
ghost use Rattle.entry_tree.specs.declared.waiting.Waiting.{Waiting};
ghost use Rattle.core_machine.specs.fleet_rows.Limits.{most_pending};

use crate::joins::appended;
use crate::tree::{EntryTree, Fork, Sums};
use crate::waiting::Waiting;
use std::alloc::{AllocError, Global};
use std::marker::Model;
use std::mem;

/// An entry that can be put into a tree without taking memory. Contracts see the entry.
#[derive(Drop)]
pub struct Spot {
    fork: Box<Fork>,
}

impl Model for Spot {
    ghost use Rattle.std.specs.Prelude.{◌≡◌, []};
    ghost use Rattle.entry_tree.specs.declared.waiting.Waiting.{Waiting};

    ghost Value = { Waiting };

    ghost view = { λ a. a.fork.value.waiting };

    ghost invariant = { λ a. (a.fork.value.left ≡ []) × (a.fork.value.right ≡ []) };
}

impl Spot {
    /// Takes the memory of one entry. On failure the entry is dropped.
    pub fn new(alloc: Global, waiting: Waiting) -> Result<Spot, AllocError>
        ensures { IfOk result (λ spot. spot ≡ waiting) }
    {
        let fork = Box::new(
            alloc,
            Fork {
                left: EntryTree::new(),
                waiting,
                sums: Sums {
                    count: 1,
                    candidates: 0,
                    queued: 1,
                    size: 0,
                },
                right: EntryTree::new(),
            },
        )?;
        Ok(Spot { fork })
    }

    /// The entry.
    pub fn waiting(&self) -> &Waiting
        ensures { result.now ≡ self.now }
    {
        &self.fork.waiting
    }

    fn into_fork(self) -> Box<Fork>
        ensures left { result.value.left ≡ [] }
        ensures waiting { result.value.waiting ≡ self }
        ensures right { result.value.right ≡ [] }
    {
        self.fork
    }
}

impl EntryTree {
    /// Appends an entry. Its receipt must be above all others.
    pub fn put(&mut self, spot: Spot)
        requires above { AllByRecursion (λ (w : Waiting). w.entry.receipt < spot.entry.receipt) self.old }
        requires room { length self.old < most_pending }
        ensures { self.new ≡ self.old ++ spot ∷ [] }
    {
        let _ = self.count();
        let tree = mem::replace(self, EntryTree::new());
        *self = appended(tree, spot.into_fork());
    }
}
