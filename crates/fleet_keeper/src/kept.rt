//! The answers of a keeper.

/// The result of keeping a record, or of a checkpoint.
#[derive(Clone, Copy, Debug, PartialEq, Eq)]
pub enum Kept {
    /// Every image has the new records.
    Ok,
    /// One fault was counted, and every image has the old records.
    Failed,
    /// Two faults were counted, one in the call and one in its repair. An image has the old records or the new ones. The keeper
    /// is down, and must be opened again.
    Down,
    /// There was no memory. Nothing changed.
    Memory,
    /// A record has 2^32 bytes or more, the log would exceed 2^62 bytes, or no generation is left below 2^64. Nothing changed.
    Spent,
}
