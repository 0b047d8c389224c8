//! Defines what a compaction can answer.

/// The result of a compaction.
#[derive(Clone, Copy, PartialEq, Eq, Debug)]
pub enum Compacted {
    /// Both logs are checkpoints of what the core holds.
    Ok,
    /// A disk of the queue counted a fault. The store's log is a checkpoint. The queue's log is unchanged, unless it went down.
    QueueFault,
    /// A disk of the store counted a fault. Both logs are unchanged, unless the store's went down.
    StoreFault,
    /// A log has no generation left, has a record too long for a frame, or would exceed 2^62 bytes. If it is the store's, both
    /// logs are unchanged. If it is the queue's, the store's is a checkpoint and the queue's is unchanged.
    Spent,
    /// The core was down. Nothing changed.
    Down,
    /// There was no memory. Nothing changed.
    Memory,
}
