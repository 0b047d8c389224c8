//! Names the two files of a pair.

/// One of the two files of a pair.
#[derive(Clone, Copy, Debug, PartialEq, Eq)]
pub enum Side {
    /// The first file. It counts if both have the same generation.
    A,
    /// The second file.
    B,
}
