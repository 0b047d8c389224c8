//! The entries of the list that a core under the lock stands for.
use core_ends::{Core, Keeper};
use core_spec::Event;
use fleet_ports::Disk;

/// An entry of the list that a core under the lock stands for. Only contracts use it; no value of it is made.
pub enum Entry<D: Disk + Drop, K: Keeper + Drop> {
    /// The core as it came under the lock. It is the first entry.
    Opened(Core<D, K>),
    /// An event of the core since its opening. These follow, oldest first.
    Happened(Event),
}
