//! The answers of a call that reads the next item.
use spool_maker::fleet_rows::{Command, Kinds};
use spool_maker::stamp_time::Moment;

/// The answer of one call: an item, the end, or a failure.
#[derive(Drop)]
pub enum NextItem {
    /// A command. Its payload was moved, not copied.
    Command(Command),
    /// A sweep of these kinds at this moment.
    Sweep(Kinds, Moment),
    /// All bytes were read.
    End,
    /// The remaining bytes begin with no item: the item has a wrong form, is cut short, or ends past byte 2^62.
    SpoolBad {
        /// The offset of its first byte in the spool, from 0.
        at: u64,
    },
    /// The source failed.
    ReadFault,
    /// There was no memory.
    Memory,
}
