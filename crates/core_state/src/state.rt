//! Holds the parts of a core, and tells what takes it down.
ghost use Rattle.std.specs.Prelude.{◌≡◌};
ghost use Rattle.core_state.specs.Seen.{down_of, down_by_of};

use crate::events::Events;
use crate::found::Found;
use fleet_tables::Tables;
use queue_log::QueueLog;
use queue_log::fleet_keeper::Keeper;
use queue_log::fleet_ports::Disk;
use retry_discard::Discards;
use std::alloc::Global;
use supersede_core::Pending;

/// The parts of a core. The calls that change a core keep it sound (`IsSound` in `specs/Seen.antt`).
#[derive(Drop)]
pub struct CoreState<D: Disk + Drop, K: Keeper + Drop> {
    pub alloc: Global,
    /// The log of the commands that came in, and of how each one ended.
    pub queue: QueueLog<D>,
    /// The keeper of the changes and sweeps that are applied to the tables.
    pub store: K,
    pub tables: Tables,
    /// The queued and the claimed commands.
    pub pending: Pending,
    /// The discarded commands.
    pub discards: Discards,
    /// The events since the opening.
    pub events: Events,
    /// The last receipt.
    pub last: u64,
    /// Whether a command was applied whose Done is missing in the queue.
    pub undone: bool,
    /// The records that the opening read, before it wrote a missing Done.
    pub found: Found,
    /// The fault counts of the queue's two disks when the opening began.
    pub opened_a: u64,
    pub opened_b: u64,
}

/// Which log a core is down by.
#[derive(Clone, Copy, PartialEq, Eq, Debug)]
pub enum DownBy {
    /// The core is up.
    No,
    /// The queue's log is down, or a command that was applied has no Done in it.
    Queue,
    /// The keeper of the store's records is down.
    Store,
}

impl<D: Disk + Drop, K: Keeper + Drop> CoreState<D, K> {
    /// Whether a repair failed, or a command that was applied has no Done. A core that is down must be opened again.
    pub fn is_down(&self) -> bool
        ensures value { result ≡ down_of K.down self.now }
    {
        self.undone || self.queue.is_down() || self.store.is_down()
    }

    /// Which log the core is down by. If both are down, the answer is the store's.
    pub fn down_by(&self) -> DownBy
        ensures value { result ≡ down_by_of K.down self.now }
    {
        if self.store.is_down() {
            return DownBy::Store;
        }
        if self.undone || self.queue.is_down() {
            return DownBy::Queue;
        }
        DownBy::No
    }
}
