//! The longest log.

/// The most bytes of a log's file: 2^62.
pub const MOST_LOG: u64 = 1 << 62;
