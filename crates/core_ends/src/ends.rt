//! The ways in which the work on a core ends.
ghost use Rattle.std.specs.Prelude.{◌≡◌};
ghost use Rattle.core_ends.specs.Answers.{after_settle};

use command_core::Settled;

/// How the work on a core ended.
#[derive(Drop)]
pub enum WorkEnd {
    /// Nothing is pending.
    Done,
    /// A disk of the queue failed. If the core is still up, the command at hand is queued again.
    QueueFault,
    /// The store's log failed, and so did its repair.
    StoreDown,
    /// A log has no room for a record.
    Spent,
    /// The core was down.
    Down,
    /// There was no memory. The command at hand is queued again.
    Memory,
}

/// The end that an answer of a settle means.
pub fn end_of_settle(settled: &Settled) -> Option<WorkEnd>
    ensures { result ≡ after_settle settled.now }
{
    match settled {
        Settled::Applied | Settled::Discarded | Settled::Failed { .. } | Settled::NotClaimed =>
            None,
        Settled::StoreDown => Some(WorkEnd::StoreDown),
        Settled::QueueFault => Some(WorkEnd::QueueFault),
        Settled::Spent => Some(WorkEnd::Spent),
        Settled::Down => Some(WorkEnd::Down),
        Settled::Memory(_, _) => Some(WorkEnd::Memory),
    }
}
