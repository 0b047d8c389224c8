//! Defines what the core does with commands: events, histories, and the records that stand for them.
//!
//! A history is a list of events, newest first. The crate promises nothing by itself: the contracts of the core cite these
//! definitions. The files of `specs/`:
//!
//! - `Commands.antt`: what a command decodes to, and its group.
//! - `History.antt`: the state of a command in a history, and what was applied.
//! - `Legal.antt`: which event may come next.
//! - `Pending.antt` and `Discards.antt`: which commands are pending, and which were discarded.
//! - `Thread.antt`: what one thread would have made of the same commands.
//! - `Checkpoints.antt`: the records that start a compacted log.
//! - `Stands.antt`: which records stand for a history.
//! - `Damage.antt`: which frames are damage.
//! - `Files.antt`: what the bytes of the four files stand for.
//!
//! The code shares three types with these definitions: [`Event`], [`Entry`] (a pending command) and [`Dead`] (a discarded one).
#![tactic(auto)]

mod dead;
mod entry;
mod event;

pub use dead::Dead;
pub use entry::Entry;
pub use event::Event;

// Re-exports for the crates above.
pub use json_read;
pub use json_read::{json_tree, stamp_time};
pub use record_spec;
pub use table_spec::fleet_rows;
