//! Reads spools: sequences of commands and sweeps, from any source.
//!
//! [`Spool`] owns its source and returns the items in order. [`SpoolReader`] borrows the source at each call. Each call returns a
//! [`NextItem`]: an item, the end, or a failure. [`make`] writes a spool that a seed leads to (code in `spool_maker`).
//!
//! Contracts see two things: the bytes after the returned items, if the source tells them, and the number of bytes of the
//! returned items. They promise, however the source splits its bytes:
//!
//! - An item is returned exactly if the remaining bytes begin with its text.
//! - `End` is returned exactly if no byte remains.
//! - `SpoolBad` is returned exactly if the remaining bytes begin with no item that ends at byte 2^62 or before.
//! - `ReadFault` is returned only if the source counted a fault; any other answer leaves the source's fault count unchanged.
//! - Nothing is read while an item or a malformed first line stands there whole.
//!
//! A call has no preconditions. After a failure the number of returned bytes is unchanged, and at most one item's bytes are lost
//! at the front. The next call reads from the bytes that remain. Each item raises the number of returned bytes, which is at most
//! 2^62, so a loop over the items ends.
//!
//! Each read asks the source for at least 64 KiB. The part of a large payload that wasn't read ahead goes from the source
//! directly into the payload.
//!
//! The clauses: `item`, `end`, `bad`, `cause` and `fault` for these, `stays` and `lost` for failures, `more` and `within` for
//! the number of returned bytes. At End the source was read to its end (`read_to_the_end`). At most 16,777,418 bytes are lost,
//! as many as one item may have.
//!
//! Costs: each byte is moved once or twice.
#![tactic(auto)]

mod first_line;
mod item;
mod piece;
mod reader;
mod spool;

pub use item::NextItem;
pub use spool::{Spool, SpoolReader};
pub use spool_maker::{Made, make};

// Re-exports for the crates above.
pub use spool_maker::{fleet_ports, stamp_time};
