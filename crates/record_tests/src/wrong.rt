//! How a test fails.
use std::alloc::AllocError;

/// Why a test fails: a row of its table is wrong, counted from 0, or no memory was left.
#[derive(Clone, Copy, Debug)]
pub(crate) enum Wrong {
    Row(usize),
    Memory,
}

impl From<AllocError> for Wrong {
    fn from(_error: AllocError) -> Wrong {
        Wrong::Memory
    }
}

/// Fails with this row unless the fact holds.
pub(crate) fn holds(fact: bool, row: usize) -> Result<(), Wrong> {
    if fact { Ok(()) } else { Err(Wrong::Row(row)) }
}
