//! The trusted edge: standard streams and real files as ports.
//!
//! Each object is a few lines over the system calls. It keeps a counter that rises at each failure, so a fault is answered only
//! if the counter rose. No contract says what a file or a stream holds. That a real file keeps the crash model of `Disk` is a
//! premise of every proof over it; `file.rt` says what this crate does for it. The streams have no buffer of their own. They use
//! the caller's buffer, which has 64 KiB or more in bulk reads and writes.
//!
//! Each count rises exactly at a failed call, up to its last value. It is not proved that the system gives and takes the bytes.
#![tactic(auto)]

mod count;
mod file;
mod stdin;
mod stdout;

pub use file::FileDisk;
pub use stdin::StdSource;
pub use stdout::StdSink;

// The words of lower crates that the modules above use.
pub use fleet_ports;
