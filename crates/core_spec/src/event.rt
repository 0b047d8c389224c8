//! The events of the core, from which a history is made.
use json_read::stamp_time::Moment;
use table_spec::fleet_rows::{Cause, Kinds, Shared};

/// One atomic step of the core. The first number of an event is the receipt of its command.
#[derive(Drop)]
pub enum Event {
    /// A command was submitted, and is queued.
    Submit(u64, Shared),
    /// A worker claimed the command.
    Claim(u64),
    /// The worker gave the command back to the queue.
    Release(u64),
    /// The command was applied. The moment is when it was received, if the store keeps that.
    Apply(u64, Option<Moment>),
    /// The first command was superseded by the second, a newer one of its group that was applied.
    Supersede(u64, u64),
    /// The store failed at the command. The numbers behind the receipt are the store's fault counts before and after.
    Fail(u64, u64, u64),
    /// The command was discarded for this cause.
    Discard(u64, Cause),
    /// The tables were swept at this moment.
    Sweep(Kinds, Moment),
    /// The core was opened again: claimed commands are queued again.
    Restart,
}
