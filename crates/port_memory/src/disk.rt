//! The representation of a disk in memory.
//!
//! Each call that changes what a crash may leave is kept as a step: a write, a cut, a successful sync. The images, the greatest
//! length since the last sync and the images at earlier moments are computed from the steps (`specs/History.antt`). So a moment
//! is a number of steps. What a read gives is kept beside them. The ghost field `replayed` says that it is the result of the
//! steps. A failed write or cut is recorded too, without effect on what a read gives: a crash may leave any bytes in its range.
//! If memory is too short even for that record, the images stay as they were, and `unnoted` counts it.
//!
//! The initial bytes stay in place until the first write or cut, so a new disk allocates nothing.
ghost use Rattle.std.specs.Prelude.{◌≡◌, reverse};
ghost use Rattle.port_memory.specs.History.{held, seen_after};

use crate::numbers::Numbers;
use crate::step::Step;
use json_tree::Bytes;
use std::alloc::Global;

/// A disk in memory. Contracts know its content and its images at every moment.
#[derive(Drop)]
pub struct MemoryDisk {
    pub(crate) alloc: Global,
    pub(crate) start: Bytes,
    /// What a read gives, once it differs from the start.
    pub(crate) written: Option<Vec<u8>>,
    pub(crate) steps: Vec<Step>,
    pub(crate) fail: Numbers,
    pub(crate) calls: u64,
    pub(crate) faults: u64,
    pub(crate) starved: u64,
    /// How many failed writes and cuts couldn't be recorded, for lack of memory.
    pub(crate) unnoted: u64,
    ghost replayed: { held start written ≡ seen_after start (reverse steps.items) },
}

impl MemoryDisk {
    /// The bytes that a read gives.
    pub(crate) fn as_slice(&self) -> &[u8]
        ensures value { result.now ≡ held self.now.start self.now.written }
    {
        match &self.written {
            Some(file) => file.as_slice(),
            None => self.start.as_slice(),
        }
    }
}
