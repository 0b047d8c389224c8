//! How a test fails.
use json_read::ReadFault;
use std::alloc::AllocError;

/// Why a test fails: a row of its table is wrong, counted from 0, a text isn't read, or no memory was left.
#[derive(Clone, Copy, Debug)]
pub(crate) enum Wrong {
    Row(usize),
    NotRead,
    Memory,
}

impl From<AllocError> for Wrong {
    fn from(_error: AllocError) -> Wrong {
        Wrong::Memory
    }
}

impl From<ReadFault> for Wrong {
    fn from(_fault: ReadFault) -> Wrong {
        Wrong::NotRead
    }
}

/// Fails with this row unless the fact holds.
pub(crate) fn holds(fact: bool, row: usize) -> Result<(), Wrong> {
    if fact { Ok(()) } else { Err(Wrong::Row(row)) }
}
