//! The steps that a disk in memory records.
use json_tree::Bytes;

/// A call that changed what a crash may leave.
#[derive(Drop)]
pub(crate) enum Step {
    /// A write: its offset, its bytes, and whether a read gives them afterwards.
    Wrote(u64, Bytes, bool),
    /// A failed write whose bytes found no memory: its offset and its length.
    Opened(u64, u64),
    /// A cut to a length, and whether it took effect.
    Shortened(u64, bool),
    /// A sync that succeeded.
    Synced,
}
