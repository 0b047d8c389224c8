//! Defines what a claim can answer.
use crate::job::Job;

/// The result of a claim. Commands that were superseded before a refusal stay superseded.
#[derive(Drop)]
pub enum Claimed {
    /// The least command that may be claimed.
    Job(Job),
    /// Commands are pending, and none of them may be claimed now.
    Rest,
    /// No command is pending.
    Done,
    /// A disk of the queue counted a fault.
    QueueFault,
    /// The queue's log has no room for the record of a superseded command.
    Spent,
    /// The core was down.
    Down,
    /// There was no memory.
    Memory,
}
