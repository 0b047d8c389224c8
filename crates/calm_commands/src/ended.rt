//! Carries the end of a command, with its disks.
use crate::status::Status;
use fleet_ports::{Disk, Disks};

/// How a command ended: its status, and the disks that it was given.
#[derive(Drop)]
pub struct Ended<D: Disk + Drop> {
    /// How it ended.
    pub status: Status,
    /// The disks.
    pub disks: Disks<D>,
}
