//! Notes, from which tests read a course.

/// One act.
#[derive(Drop)]
pub enum Note {
    /// A text was read as a pattern, and whether it was refused.
    Read(String, bool),
    /// The second text was tried on the pattern of the first.
    Tried(String, String),
}
