//! The state of the reader: the open containers, and what is read next.
ghost use Rattle.std.specs.Prelude.{◌≡◌, []};

use json_tree::{Items, Json, Text};
use std::alloc::{AllocError, Global};

// An open container: an array with its items so far, or an object with its members so far, equal keys too, and the key of the
// value being read.
#[derive(Drop)]
pub(crate) enum Frame {
    Array(Items),
    Object(Vec<(Text, Json)>, Text),
}

// What is read next.
#[derive(Drop)]
pub(crate) enum Mode {
    Value,
    FirstItem,
    FirstKey,
    After(Json),
}

// The buffers of closed containers, for reuse. A container grows in a buffer that an earlier one left. Once its length is known,
// it is moved into memory of its own.
#[derive(Drop)]
pub(crate) struct Spare {
    items: Vec<Items>,
    members: Vec<Vec<(Text, Json)>>,
}

impl Spare {
    pub(crate) fn new(alloc: Global) -> Spare {
        Spare {
            items: Vec::new(alloc),
            members: Vec::new(alloc),
        }
    }

    pub(crate) fn take_items(&mut self, alloc: Global) -> Items
        ensures { result ≡ [] }
    {
        match self.items.pop() {
            Some(mut room) => {
                room.clear();
                room
            }
            None => Items::new(alloc),
        }
    }

    pub(crate) fn take_members(&mut self, alloc: Global) -> Vec<(Text, Json)>
        ensures { result.items ≡ [] }
    {
        match self.members.pop() {
            Some(mut room) => {
                room.clear();
                room
            }
            None => Vec::new(alloc),
        }
    }

    pub(crate) fn give_items(&mut self, room: Items) -> Result<(), AllocError> {
        self.items.push(room)?;
        Ok(())
    }

    pub(crate) fn give_members(&mut self, room: Vec<(Text, Json)>) -> Result<(), AllocError> {
        self.members.push(room)?;
        Ok(())
    }
}
