//! The representation of a pair in memory: the log of the file that counts, and the other file.
ghost use Rattle.std.specs.Prelude.{◌≡◌};
ghost use Rattle.log_pair.specs.Pair.{side_of, size_of_pair, is_down_of, disk_a, disk_b};

use log_spec::Side;
use record_log::Log;
use record_log::fleet_ports::Disk;

/// A log in two files. Unless it is down, each pair of images of its disks stands for the same frames.
#[derive(Drop)]
pub struct Pair<D: Disk + Drop> {
    /// The log of the file that counts.
    pub(crate) log: Log<D>,
    /// The other file.
    pub(crate) other: D,
    /// Which file counts.
    pub(crate) side: Side,
    /// Whether the repair of a checkpoint failed.
    pub(crate) torn: bool,
}

impl<D: Disk + Drop> Pair<D> {
    /// Which file counts.
    pub fn side(&self) -> Side
        ensures value { result ≡ side_of self.now }
    {
        self.side
    }

    /// The size of the file that counts, in bytes, up to and including its first closed gate.
    pub fn size(&self) -> u64
        ensures value { result ≡ size_of_pair self.now }
    {
        self.log.size()
    }

    /// Whether a repair failed. If so, open the pair anew.
    pub fn is_down(&self) -> bool
        ensures value { result ≡ is_down_of self.now }
    {
        self.torn || self.log.is_down()
    }

    /// The first disk and the second, to be opened anew or returned.
    pub fn into_disks(self) -> (D, D)
        ensures first { result.0 ≡ disk_a self }
        ensures second { result.1 ≡ disk_b self }
    {
        match self.side {
            Side::A => (self.log.into_disk(), self.other),
            Side::B => (self.other, self.log.into_disk()),
        }
    }
}
