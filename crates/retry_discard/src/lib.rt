//! Keeps the discarded commands, sorted by receipt.
//!
//! Contracts see [`Discards`] as the list, with the room for more, and say exactly what each call does to the list.
//! [`Discards::reserve`] makes room, so that [`Discards::put`] takes no memory. [`write_line`] prints one discarded command.
//! [`is_last`] tells whether the next failure of the store is the sixteenth, which discards the command.
#![tactic(auto)]

mod discards;
mod line;
mod places;

pub use core_spec::Dead;
pub use discards::{Discards, is_last};
pub use line::write_line;

// Re-exports for the crates above.
pub use core_spec;
