//! Defines a worker's verdict on a command, and what a settle can answer.
use crate::prepared::Prepared;
use core_claims::Job;
use fleet_rows::Refusal;

/// What a command decodes to. A worker prepares the change before the settle, so it isn't computed or spelt while the core is
/// held.
#[derive(Drop)]
pub enum Verdict {
    /// A change, prepared.
    Change(Prepared),
    /// Why the command is refused.
    Refused(Refusal),
}

/// The result of a settle.
#[derive(Drop)]
pub enum Settled {
    /// The store has the change, and the queue has its Done.
    Applied,
    /// The command was refused, or the store failed at it for the sixteenth time.
    Discarded,
    /// The store failed, and the command is queued again. It has failed this many times.
    Failed { attempts: u32 },
    /// The store went down. The command stays claimed.
    StoreDown,
    /// A disk of the queue counted a fault. If the store has the change, the command is applied and the core is down. Otherwise
    /// it is queued again if the core is up, and stays claimed if the core went down.
    QueueFault,
    /// The command isn't claimed. Nothing changed.
    NotClaimed,
    /// A log has no room for what would be written. The command is queued again.
    Spent,
    /// The core was down. Nothing changed.
    Down,
    /// There was no memory. The command stays claimed.
    Memory(Job, Verdict),
}
