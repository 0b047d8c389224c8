//! Makes a disk in memory, and reads its call counters.
ghost use Rattle.std.specs.Prelude.{◌≡◌};
ghost use Rattle.port_memory.specs.Disks.{IsFresh, fails_of, calls_of, starved_of, unnoted_of};

use crate::disk::MemoryDisk;
use crate::numbers::Numbers;
use json_tree::Bytes;
use std::alloc::Global;

impl MemoryDisk {
    /// A disk with these bytes, as after a sync. Its calls with the listed numbers fail, counted from 1. A failing call leaves
    /// what a read gives unchanged. The call allocates nothing.
    pub fn new(alloc: Global, bytes: Bytes, fail: Numbers) -> MemoryDisk
        ensures fresh { IsFresh result bytes }
        ensures fails { fails_of result ≡ fail }
    {
        MemoryDisk {
            alloc,
            start: bytes,
            written: None,
            steps: Vec::new(alloc),
            fail,
            calls: 0,
            faults: 0,
            starved: 0,
            unnoted: 0,
        }
    }

    /// The number of calls so far.
    pub fn calls(&self) -> u64
        ensures count { result ≡ calls_of self.now }
    {
        self.calls
    }

    /// The number of calls that failed for lack of memory.
    pub fn starved(&self) -> u64
        ensures count { result ≡ starved_of self.now }
    {
        self.starved
    }

    /// The number of failed writes and cuts that couldn't be recorded, for lack of memory.
    pub fn unnoted(&self) -> u64
        ensures count { result ≡ unnoted_of self.now }
    {
        self.unnoted
    }
}
