//! Ports in memory, for tests: sources, sinks and disks whose content contracts know, and which fail at chosen calls.
//!
//! Calls are numbered from 1. A call fails exactly if its number is in the `Numbers` of the object, or if memory runs out;
//! `starved` counts only the latter. A `MemoryDisk` records all calls that changed what a crash may leave, so contracts see its
//! images at every moment. A `FuseDisk` passes a given number of calls on and then fails every call.
//!
//! A failed write, also behind the fuse, leaves what a read gives unchanged. But it opens its range in the images until the next
//! successful sync, and a failed cut opens what is past its length. `FuseDisk::crash` gives the disk that a crash leaves, one
//! image picked by a number: each digit of it says how one step since the last sync ends (`specs/Ways.antt`).
//!
//! Limits: without memory to note a failed write the images stay as they were, and `unnoted` counts it. Only tests show that
//! `unnoted` stays 0 with enough memory. A failed length, read or sync leaves the images (`stay`).
#![tactic(auto)]

mod calls;
mod crash;
mod disk;
mod failed;
mod fresh;
mod fuse;
mod note;
mod numbers;
mod overlay;
mod sink;
mod source;
mod step;

pub use disk::MemoryDisk;
pub use fuse::FuseDisk;
pub use numbers::Numbers;
pub use sink::MemorySink;
pub use source::MemorySource;

// The words of lower crates that the modules above use.
pub use fleet_ports;
pub use json_tree;
