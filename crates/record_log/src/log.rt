//! The representation of a log in memory: its disk, and where the next frame goes.
//!
//! The frames themselves stay on the disk. That each image of the disk stands for the same frames is a clause of every call that
//! makes or changes a log.
ghost use Rattle.std.specs.Prelude.{◌+◌, ◌^◌, ◌<◌};

use fleet_ports::Disk;

/// The offset of a gate, which is within a file.
#[derive(Drop)]
pub(crate) struct Gate {
    pub(crate) place: u64,
    ghost small: { place + 1 < 2 ^ 64 },
}

/// A log in one file. Unless it is down, each image of its disk stands for the same frames.
#[derive(Drop)]
pub struct Log<D: Disk + Drop> {
    pub(crate) disk: D,
    pub(crate) generation: u64,
    /// The first closed gate.
    pub(crate) gate: Gate,
    pub(crate) down: bool,
}
