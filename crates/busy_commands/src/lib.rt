//! Runs the two commands that may wait: `run`, which may also serve connections afterwards, and `serve`.
//!
//! [`run_busy`] reads the arguments and does what they ask for. `run` takes a spool (`spool_run`) and prints its summary. If it
//! ends at Done and a port is given, it then serves connections over its core. `serve` opens a core and serves connections over
//! it (`core_inbox`). `specs/Busy.antt` says what each request does.
//!
//! Guarantees of the contracts:
//! - [`run_busy`]: Usage comes only if the arguments ask for neither `run` nor `serve`, and for those nothing but Usage or Memory
//!   comes (`run`, `usage`). `run` without a port leaves front and patterns unchanged, and so does `run --serve` unless the run
//!   ends at Done. `serve` leaves spool and output unchanged (`BusyRun`). Without memory to read the arguments the end is Memory,
//!   and nothing is changed.
//! - Connections are served as `serve_links` of `core_inbox` says, on the port of the arguments (`ServedOn`).
//! - In the end each image stands for the history and the commands with receipts, in order (`ServesHistory`). If the queue's
//!   log went down, an image may have one record more.
//! - ListenFault is counted by the front (`cause`). It comes if the front doesn't listen, and then nothing was served, or if
//!   the front fails in place of a connection. Any other fault ends one connection, or is answered on it.
//!
//! Costs and limits:
//! - No row is read before listening. The first query for rows computes what they show, and what is computed is kept.
//! - No clause says that a connection is taken after the previous one ended, or that nothing read ahead is answered after a
//!   failed write.
#![tactic(auto)]

mod busy;
mod serving;

pub use busy::run_busy;

// Re-exports for the crates above.
pub use spool_run::{
    Ended, FileName, Gate, OpenGate, QueryRefusal, Status, compact_disks, print_discards,
    print_line, print_payload, print_rows, sweep_disks,
};
