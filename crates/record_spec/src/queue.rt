//! Defines the records of the queue's log.
use history_spec::fleet_rows::{Cause, Refusal, Shared};

/// A record of the queue's log; each frame has one. Receipts count from 1.
#[derive(Drop)]
pub enum QueueRecord {
    /// Tag 0: the last receipt that was given before the log begins.
    Base(u64),
    /// Tag 1: a pending command, and how often the store failed on it, fewer than 16 times.
    Held(u64, u32, Shared),
    /// Tag 2: a command that was discarded, and why.
    Dead(u64, Shared, Cause),
    /// Tag 3: a command that was received under this receipt.
    Submit(u64, Shared),
    /// Tag 4: the command was applied.
    Done(u64),
    /// Tag 5: the first command was superseded by the second, which was applied.
    Superseded(u64, u64),
    /// Tag 6: the command was refused, and therefore discarded.
    Refused(u64, Refusal),
    /// Tag 7: the store failed on the command, with its fault counts before and after. The sixteenth failure discards the
    /// command.
    Fail(u64, u64, u64),
}
