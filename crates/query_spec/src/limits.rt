//! The limits on the size of a query.

/// The most bytes of a query's text.
pub const MOST_QUERY: usize = 1_048_576;

/// The greatest depth to which filters nest.
pub const MOST_DEPTH: usize = 100;
