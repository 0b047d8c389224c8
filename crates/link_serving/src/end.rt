//! Names the ways in which serving a front ends.

/// How serving a front ended.
#[derive(Clone, Copy, PartialEq, Eq, Debug)]
pub enum ServeEnd {
    /// The given number of connections was served, or no connection remains.
    Done,
    /// The front failed.
    FrontFault,
}
