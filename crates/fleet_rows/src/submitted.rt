//! What becomes of a command that a client hands in.

/// What the core answers to a command that a client hands in (PuppetDB's command API v1: an accepted command gets a receipt).
#[derive(Clone, Copy, PartialEq, Eq, Debug)]
pub enum Submitted {
    /// The command is pending under this receipt, and no crash loses it. Receipts count from 1.
    Receipt(u64),
    /// 262,144 commands are pending, or their payloads with this one would pass 1,073,741,824 bytes.
    Full,
    /// A disk of the queue counted a fault.
    QueueFault,
    /// The last receipt is 2^64 - 1, or the queue's log has no room for the command.
    Spent,
    /// The core is down, and takes no command.
    Down,
    /// There was no memory.
    Memory,
}
