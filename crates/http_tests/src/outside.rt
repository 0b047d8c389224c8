//! An inbox that takes commands, or answers as it is told.
ghost use Rattle.std.specs.Prelude.{◌≡◌, ◌≤◌, length, true, false};
ghost use Rattle.http_routes.specs.Inbox.{IsFull, IsSubmit};
ghost use Rattle.http_tests.specs.Outside.{bytes_in, taken_in, held_in};

use fleet_rows::{Command, Entity};
use fleet_tables::Tables;
use http_routes::{Inbox, Submitted};
use json_tree::Text;
use std::alloc::{AllocError, Global};

/// What an inbox answers.
#[derive(Clone, Copy)]
pub enum Says {
    /// It takes commands, where there is room.
    Taking,
    /// As many wait as may.
    Full,
    /// Its log couldn't be written.
    QueueFault,
    /// No receipt is left.
    Spent,
    /// It takes nothing any more.
    Down,
    /// There was no memory.
    Memory,
}

/// Takes commands under the next receipts, or has another answer to each.
#[derive(Drop)]
pub struct OneInbox {
    tables: Tables,
    taken: Vec<Command>,
    bytes: u64,
    says: Says,
    ghost bytes_are: { bytes ≡ bytes_in taken.items },
    ghost few: { bytes ≤ 1_073_741_824 },
}

impl OneInbox {
    /// With no commands.
    pub fn new(alloc: Global, tables: Tables, says: Says) -> OneInbox {
        OneInbox {
            tables,
            taken: Vec::new(alloc),
            bytes: 0,
            says,
        }
    }

    /// The commands that were taken, in their order.
    pub fn taken(&self) -> &[Command] {
        self.taken.as_slice()
    }

    fn is_full(&self, command: &Command) -> bool
        requires { length command.now.payload ≤ 16_777_216 }
        ensures full { result ≡ true → IsFull command.now (taken_in self.now.taken.items) }
        ensures room { result ≡ false → IsFull command.now (taken_in self.now.taken.items) → ⊥ }
    {
        let size = command.payload.as_slice().len() as u64;
        self.taken.len() >= 262_144 || self.bytes > 1_073_741_824 - size
    }

    // Takes the command, where there is room.
    fn take(&mut self, command: Command) -> Submitted
        requires { length command.payload ≤ 16_777_216 }
        ensures tables { self.new.tables ≡ self.old.tables }
        ensures says { self.new.says ≡ self.old.says }
        ensures submits { IsSubmit command result (taken_in self.old.taken.items) (taken_in self.new.taken.items) }
    {
        if self.is_full(&command) {
            return Submitted::Full;
        }
        let size = command.payload.as_slice().len() as u64;
        match self.taken.push(command) {
            Ok(()) => {}
            Err(_) => return Submitted::Memory,
        }
        self.bytes += size;
        Submitted::Receipt(self.taken.len() as u64)
    }
}

impl Inbox for OneInbox {
    ghost use Rattle.http_tests.specs.Outside.{held_in};

    ghost shown = { λ s. s.tables };

    ghost held = { λ s. held_in s.says s.taken.items };

    ghost does = { λ _ _ _ _. Unit {0} };

    fn tables(&self) -> &Tables {
        &self.tables
    }

    fn prepare(&mut self, entity: Entity) -> Result<(), AllocError> {
        self.tables.prepare(entity)
    }

    fn prepare_node(&mut self, entity: Entity, certname: &Text) -> Result<(), AllocError> {
        self.tables.prepare_node(entity, certname)
    }

    fn submit(&mut self, command: Command) -> Submitted {
        match self.says {
            Says::Taking => self.take(command),
            Says::Full => Submitted::Full,
            Says::QueueFault => Submitted::QueueFault,
            Says::Spent => Submitted::Spent,
            Says::Down => Submitted::Down,
            Says::Memory => Submitted::Memory,
        }
    }
}
