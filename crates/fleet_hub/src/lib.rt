//! Shares a core between threads, and drains it by several workers.
//!
//! A [`Hub`] is a turn lock over a core. Each of its calls takes the lock once (one hold) and makes the core's call of that name.
//! [`drain`] runs workers, each in a thread of its own, until nothing is pending or the work can't go on. Its contract is that of
//! the drain by one worker. A [`Gate`] decodes for workers, outside the lock. A hub for work alone ([`WorkAlone`]) takes neither
//! commands nor sweeps.
//!
//! Contracts see a [`Pass`] as `turn_lock` does. The list that a pass has seen is the core as it came under the lock, followed by
//! its events, oldest first. Each call says what it did between the core found and the core left (`OneCall` in `hub_calls`). The
//! list of the core found starts with all that the pass has seen.
//!
//! [`Hub::close`] says that the calls of all passes lead from the first core to the last (`Follows` in `hub_calls`). The last
//! core stands for each history that the first stood for, with further events. Each moment within is covered, call by call.
//!
//! No contract says that a call which waits returns.
//!
//! Clauses and costs:
//! - Each call is one hold (`one_call`). Its pass can settle what a claim gives, whatever others do (`job`). `holds` and
//!   `each_once` are those of the lock. A core that was down stays as it is; one that went down did so by a log that counted
//!   faults (`follows`).
//! - [`Hub::work`]: a worker claims when it has no job, and settles the job of its last claim. Its end is what its last call
//!   answered. Or memory is missing, and its last call requeued the job (`ends`, `LastCall`).
//! - [`drain`]: 1 to 64 workers, and then the caller. A core that is up at the end was left by a call that answered the end
//!   (`last`). So a fault that others get over is no end, but it may raise a count. No clause says that workers run at once, or
//!   which one settles what.
//! - A worker decodes and prepares outside the lock. First it takes and frees four bytes for each byte of the payload, so that
//!   its thread's memory grows once.
#![tactic(auto)]

mod draining;
mod hub;
mod work;

pub use draining::{Drained, drain};
pub use hub::Hub;

// Re-exports for the crates above.
pub use core_drain::{
    Claimed, Core, DownBy, Job, Keeper, LogKeeper, OpenCoreFault, Prepared, Settled, Submitted,
    Swept, Tally, Verdict, WorkEnd, lay_core, open_core,
};
pub use hub_work::{AllCalls, Entry, Followed, Gate, OpenGate, Pass, Purpose, WorkAlone};
