//! Tells when a batch limit is reached, so that pending commands are settled.
ghost use Rattle.std.specs.Prelude.{◌↔◌, IsTrue};
ghost use Rattle.spool_run.specs.Rules.{IsBatch};

use fleet_hub::{Core, Keeper};
use fleet_ports::Disk;

/// The number of pending commands at which they are settled, before another is submitted.
pub const MOST_WAITING: u32 = 4_096;

/// The bytes of pending payloads at which they are settled, before another command is submitted.
pub const MOST_BYTES: u64 = 67_108_864;

/// Whether either batch limit is reached.
pub(crate) fn is_batch<D: Disk + Drop, K: Keeper + Drop>(core: &Core<D, K>) -> bool
    ensures { IsTrue result ↔ IsBatch core.now.pending }
{
    let (commands, bytes) = core.pending();
    commands >= MOST_WAITING || bytes >= MOST_BYTES
}
