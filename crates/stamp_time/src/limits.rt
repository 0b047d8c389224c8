//! The longest lifetime, and so how far past a stamp a moment may be.

/// The most days of a lifetime.
pub const MOST_DAYS: u32 = 3_650;
