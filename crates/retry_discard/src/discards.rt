//! The list of discarded commands, and the rule of the sixteenth failure.
ghost use Rattle.std.specs.Prelude.{◌≡◌, ◌<◌, ◌≤◌, ◌+◌, ◌↔◌, [], length, slice_get, Some, IsOk, IsTrue, OnOk, option_map};
ghost use Rattle.core_spec.specs.Discards.{put_dead};
ghost use Rattle.retry_discard.specs.Kept.{dead_at};

use crate::places::{dead_in, put_in};
use core_spec::Dead;
use std::alloc::{AllocError, Global};
use std::marker::Model;

/// Whether a command with this many failures is discarded at its next one, the sixteenth.
pub fn is_last(attempts: u32) -> bool
    ensures { IsTrue result ↔ (15 ≤ attempts) }
{
    attempts >= 15
}

/// The discarded commands, sorted by receipt. Contracts see the list, and the room for more.
#[derive(Drop)]
pub struct Discards {
    commands: Vec<Dead>,
}

impl Model for Discards {
    ghost use Rattle.std.specs.Prelude.{◌-◌};
    ghost use Rattle.std.specs.Vec.{vec_len, vec_capacity};
    ghost use Rattle.retry_discard.specs.Kept.{DiscardsView, AreInOrder};

    ghost Value = { DiscardsView };

    ghost view = { λ a. record { list = a.commands.items; room = vec_capacity a.commands - vec_len a.commands } };

    ghost invariant = { λ a. AreInOrder a.commands.items };
}

impl Discards {
    /// An empty list.
    pub fn new(alloc: Global) -> Discards
        ensures { result.list ≡ [] }
    {
        Discards {
            commands: Vec::new(alloc),
        }
    }

    /// The number of discarded commands.
    pub fn count(&self) -> usize
        ensures { result ≡ length self.now.list }
    {
        self.commands.len()
    }

    /// The command at this index, by receipt.
    pub fn at(&self, i: usize) -> &Dead
        requires { i < length self.now.list }
        ensures { slice_get self.now.list i ≡ Some result.now }
    {
        &self.commands[i]
    }

    /// Makes room for one more command. On failure nothing changes.
    pub fn reserve(&mut self) -> Result<(), AllocError>
        ensures room { OnOk result (0 < self.new.room) }
        ensures list { self.new.list ≡ self.old.list }
        ensures kept { self.old.room ≤ self.new.room }
        ensures has_room { 0 < self.old.room → IsOk result }
    {
        self.commands.reserve(1)
    }

    /// Inserts a command by receipt, in room that was reserved. It takes no memory.
    pub fn put(&mut self, dead: Dead)
        requires { 0 < self.old.room }
        ensures list { self.new.list ≡ put_dead dead self.old.list }
        ensures room { self.old.room ≤ self.new.room + 1 }
    {
        put_in(&mut self.commands, dead);
    }

    /// The command of this receipt, if it was discarded.
    pub fn get(&self, receipt: u64) -> Option<&Dead>
        ensures { option_map (λ d. d.now) result ≡ dead_at receipt self.now.list }
    {
        dead_in(self.commands.as_slice(), receipt)
    }
}
