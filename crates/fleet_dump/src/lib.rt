//! Writes the dump of the tables to a sink.
//!
//! [`write_dump`] writes the spool that `dump_spec` defines for the tables (`dump_text`). A dump can be run like any spool: it leads
//! to the rows of the dumped tables, but for the moments at which reports were received.
//!
//! Guarantees of the contract:
//! - `which`: after [`Dumped::Ok`] the sink has exactly the dump after its earlier bytes. After a write fault or without memory it
//!   has a prefix of the dump.
//! - `cause`: a write fault is counted by the sink, and only then answered.
//! - `spool`: if the tables stand for a history, the dump is a spool of the items of `dump_spec`.
//! - `back`: one thread that runs this spool over the same lifetimes has the history's rows again, but for `receive_time`.
//!
//! The tables must be dumpable (`IsDumpable`): their changes meet the rules of changes, and their sweeps have stamps. A dump whose
//! next item would end past byte 2^62, and a payload of more than 16 MiB, count as missing memory.
//!
//! Costs: one pass over what the tables keep; the reports of each node are sorted by rank. Nothing is unpacked, and no change is
//! copied. The memory is that of one payload, of one piece of 64 KiB with the item that ends it, and some 16 bytes for each report
//! of one node and for each group of nodes. One write takes place for each 64 KiB.
#![tactic(auto)]

mod dump;
mod newest;
mod printer;

pub use dump::write_dump;
pub use printer::Dumped;
