//! Names the ends of taking a spool, and of its steps.
use fleet_hub::{Core, Keeper};
use fleet_ports::Disk;

/// How taking a spool ended.
#[derive(Drop)]
pub enum SpoolEnd {
    /// All items came in, and nothing is pending.
    Done,
    /// No whole item stands at this byte offset. The items before it came in, and nothing is pending.
    Bad { at: u64 },
    /// The spool couldn't be read further.
    ReadFault,
    /// A disk of the queue failed.
    QueueFault,
    /// The store's log failed, and so did its repair.
    StoreDown,
    /// The store failed at a sweep.
    StoreFault,
    /// No receipt is left, or a log has no room.
    Spent,
    /// There was no memory.
    Memory,
}

/// The result of taking a spool.
#[derive(Drop)]
pub struct Taken<D: Disk + Drop, K: Keeper + Drop> {
    /// The core.
    pub core: Core<D, K>,
    /// How taking the spool ended.
    pub end: SpoolEnd,
}

/// The result of one step. Without an end, the next step may follow.
#[derive(Drop)]
pub(crate) struct Stepped<D: Disk + Drop, K: Keeper + Drop> {
    pub(crate) core: Core<D, K>,
    pub(crate) end: Option<SpoolEnd>,
}
