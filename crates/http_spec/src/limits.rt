//! The size limits of heads and connections.

/// The most bytes of a head's text: 64 KiB.
pub const MOST_HEAD: usize = 65_536;

/// The most lines after the request line, each of which is a header field.
pub const MOST_LINES: usize = 64;

/// The most bytes that are read from a connection: 2^62.
pub const MOST_LINK: u64 = 1 << 62;
