//! Works as one worker over the lock: it claims, decodes, prepares and settles command after command.
//!
//! [`work_at`] goes on until an end. A worker claims when it has no job, and settles the job of its last claim. Its end is what
//! its last call answered. Or memory is missing, and its last call requeued the job (`LastCall` in `specs/Ends.antt`). A [`Gate`]
//! decodes for workers, outside the lock.
#![tactic(auto)]

mod gate;
mod work;

pub use gate::{Gate, OpenGate};
pub use work::work_at;

// Re-exports for the crates above.
pub use hub_calls::{
    AllCalls, Entry, Followed, Lock, Pass, Purpose, WorkAlone, claim, release, settle, values_go,
};
