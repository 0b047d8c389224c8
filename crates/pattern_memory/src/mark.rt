//! Marks, from which proofs read a course.

/// One byte of a pattern or of a text, or the beginning or end of an act.
#[derive(Clone, Copy)]
pub enum Mark {
    /// An act begins.
    Begin,
    Pattern(u8),
    Text(u8),
    /// The pattern was read, and whether it was refused.
    Read(bool),
    /// The text was tried on the pattern.
    Tried,
}
