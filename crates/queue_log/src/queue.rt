//! The queue's log as a value: two disks, of which one file counts.
ghost use Rattle.std.specs.Prelude.{◌≡◌};
ghost use Rattle.fleet_keeper.specs.log_pair.Pair.{disk_a, disk_b};
ghost use Rattle.queue_log.specs.Queued.{queue_pair, queue_down, queue_size, queue_side};

use fleet_keeper::fleet_ports::Disk;
use fleet_keeper::log_pair::{Pair, Side};

/// The queue's log over two disks. Unless it is down, each pair of their images has its records.
#[derive(Drop)]
pub struct QueueLog<D: Disk + Drop> {
    pub(crate) pair: Pair<D>,
}

impl<D: Disk + Drop> QueueLog<D> {
    /// Whether a repair failed. A log that is down must be opened again.
    pub fn is_down(&self) -> bool
        ensures value { result ≡ queue_down self.now }
    {
        self.pair.is_down()
    }

    /// The bytes of the file that counts, up to and including its first closed gate.
    pub fn size(&self) -> u64
        ensures value { result ≡ queue_size self.now }
    {
        self.pair.size()
    }

    /// The file that counts.
    pub fn side(&self) -> Side
        ensures value { result ≡ queue_side self.now }
    {
        self.pair.side()
    }

    /// The first disk and the second, to be opened again or given back.
    pub fn into_disks(self) -> (D, D)
        ensures first { result.0 ≡ disk_a (queue_pair self) }
        ensures second { result.1 ≡ disk_b (queue_pair self) }
    {
        self.pair.into_disks()
    }
}
