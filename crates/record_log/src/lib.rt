//! A log in one file: frames behind gates, which no crash can tear.
//!
//! A log file has a head and frames, each after a gate byte. The crate `log_spec` defines what the bytes stand for. Appending
//! takes two steps, each with a sync: write the frame after the closed gate, then open the gate. So at each moment a crash leaves
//! the old frames, or those and the new one.
//!
//! - `lay` makes the file of given frames on a disk, and opens its gate last.
//! - `open_log` reads a file and gives a `Log` and its frames, or says that the file is closed or where it is damaged.
//! - `Log::append` appends a frame. It repairs a fault on the way, so that the frame is absent in every image. If the repair
//!   fails too, the log goes down.
//! - `renew` lays a new file over an old one, with a repair if opening its gate fails. `Log::go_over` continues a log in the new
//!   file. So two files can take turns.
//!
//! Contracts speak of the disk's images. They say what every image stands for after each answer, and at every moment within the
//! call. Offsets and sizes are in bytes.
//!
//! Clauses and costs:
//! - `Log::append`: TooLong comes exactly past 2^32 - 1 bytes of a frame or 2^62 of the file (`too_long`). Memory and TooLong
//!   leave the log (`untouched`). A frame of at most 64 bytes never meets Memory (`short`). Faults are counted (`cause`), and
//!   Down counts two (`twice`). It makes two writes and two syncs.
//! - `clear` leaves at most the first byte (`bytes`), and takes no memory.
//! - `open_log` returns exactly what the bytes stand for, if the disk tells them (`told`).
#![tactic(auto)]

mod append;
mod cleared;
mod frame;
mod frames;
mod gate;
mod laid;
mod log;
mod open;
mod put;
mod reads;
mod renewal;
mod window;

pub use cleared::clear;
pub use frames::Frames;
pub use laid::{LayFault, lay};
pub use log::Log;
pub use open::{OpenFault, open_log};
pub use put::Appended;
pub use renewal::{Renewed, renew};

// The words of lower crates that the modules above use.
pub use fleet_ports;
pub use log_spec;
