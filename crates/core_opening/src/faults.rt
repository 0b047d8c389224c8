//! Names the reasons why a core can't be opened.
use thiserror::Error;

/// One of the four files.
#[derive(Clone, Copy, Debug, PartialEq, Eq)]
pub enum FileName {
    /// The first file of the queue's log.
    QueueA,
    /// The second file of the queue's log.
    QueueB,
    /// The first file of the store's log.
    StoreA,
    /// The second file of the store's log.
    StoreB,
}

/// Why a core isn't opened. Every error hands the disks back.
#[derive(Clone, Copy, Debug, Drop, Error)]
pub enum OpenCoreFault {
    /// A disk of the queue counted a fault.
    #[error("queue fault")]
    QueueFault,
    /// A disk of the store counted a fault.
    #[error("store fault")]
    StoreFault,
    /// A file is damaged, by its bytes or at the gate of a frame that can't continue the log. Damage of the queue is told before
    /// damage of the store.
    #[error("damaged at {at}")]
    Damaged {
        /// The damaged file.
        file: FileName,
        /// The byte offset of the damage.
        at: u64,
    },
    /// There was no memory.
    #[error("out of memory")]
    Memory,
    /// The queue's log has no room for its missing Done.
    #[error("spent")]
    Spent,
}
