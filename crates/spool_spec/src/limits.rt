//! The limit on the length of a spool.

/// The most bytes of a spool.
pub const MOST_SPOOL: u64 = 1 << 62;
