//! Keeps the list of events since the opening, one byte each.
ghost use Rattle.std.specs.Prelude.{◌≡◌, ◌+◌, ◌<◌, ◌≤◌, [], ◌∷◌, length, OnOk};
ghost use Rattle.core_state.specs.Tallies.{tally_of};

use crate::note::EventNote;
use crate::tally::{Tally, counted};
use retry_discard::core_spec::Event;
use std::alloc::{AllocError, Global};
use std::marker::Model;

/// The events of a core since its opening, at one byte each. Contracts see the list, newest first, and the room for more.
#[derive(Drop)]
pub struct Events {
    list: Vec<EventNote>,
}

impl Model for Events {
    ghost use Rattle.std.specs.Prelude.{reverse, ◌-◌};
    ghost use Rattle.std.specs.Vec.{vec_len, vec_capacity};
    ghost use Rattle.core_state.specs.Noted.{Noted};

    ghost Value = { Noted };

    ghost view = { λ a. record { list = reverse a.list.items; room = vec_capacity a.list - vec_len a.list } };
}

impl Events {
    /// An empty list. It takes no memory.
    pub fn new(alloc: Global) -> Events
        ensures { result.list ≡ [] }
    {
        Events {
            list: Vec::new(alloc),
        }
    }

    /// Makes room for this many more events. On failure nothing changes.
    pub fn reserve(&mut self, more: usize) -> Result<(), AllocError>
        ensures room { OnOk result (more ≤ self.new.room) }
        ensures list { self.new.list ≡ self.old.list }
        ensures kept { self.old.room ≤ self.new.room }
    {
        self.list.reserve(more)
    }

    /// Notes an event, in room that was reserved. It takes no memory. The event is dropped.
    pub fn note(&mut self, event: Event)
        requires { 0 < self.old.room }
        ensures list { self.new.list ≡ event ∷ self.old.list }
        ensures room { self.new.room + 1 ≡ self.old.room }
    {
        self.list.push_reserved(EventNote::of(event));
    }

    /// The number of events.
    pub fn count(&self) -> u64
        ensures { result ≡ length self.now.list }
    {
        self.list.len() as u64
    }

    /// How many commands came in since the opening, and how many of them or of earlier ones ended in each way.
    pub fn tally(&self) -> Tally
        ensures { result ≡ tally_of self.now.list }
    {
        counted(self.list.as_slice())
    }
}
