//! The size limit of one command.

/// The most bytes of a command's payload, and so of a request's body: 16 MiB.
pub const MOST_PAYLOAD: u32 = 16_777_216;
