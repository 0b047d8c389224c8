//! Writes the items of a dump: stamps, payloads, commands and sweeps.
//!
//! [`put_command`] appends the text of a change's command, [`put_sweep`] that of a sweep. A change is referred to where the tables
//! keep it ([`ChangeRef`]). Contracts: exactly the text of `dump_spec`. Without memory a prefix may have been appended, and a
//! payload that passes the limit of payloads counts as missing memory.
//!
//! Costs: one pass over the change, without a copy of it. A report's lists are copied as texts. The payload is built in a buffer of
//! its own, since its length precedes it.
#![tactic(auto)]

mod catalog;
mod fields;
mod item;
mod payload;
mod referred;
mod shown;
mod stamp;

pub use item::{put_command, put_sweep};
pub use referred::ChangeRef;
