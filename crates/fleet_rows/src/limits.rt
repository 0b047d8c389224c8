//! The limits of the queue and of the number of workers.

/// The most pending commands.
pub const MOST_PENDING: u32 = 262_144;

/// The most payload bytes of pending commands: 1 GiB.
pub const MOST_PENDING_BYTES: u64 = 1_073_741_824;

/// The most workers of a run.
pub const MOST_WORKERS: u32 = 64;
