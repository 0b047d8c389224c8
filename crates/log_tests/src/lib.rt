//! Tests of the ports, and of `record_log` and `log_pair` over the disks in memory. There is nothing here but tests.
//!
//! - What the bytes of a file or a pair say, and the bytes that are laid.
//! - Each call of the disk fails in turn.
//! - The disk stops at each call, and then crashes with many choices of what the crash leaves.
//! - Logs of many frames, and frames of all lengths.
//! - The ports in memory fail at their numbers.
//! - Each real object is tried once against the system. A real file has one opener at a time.
#![tactic(auto)]

#[cfg(test)]
mod crashes;
#[cfg(test)]
mod faults;
#[cfg(test)]
mod files;
#[cfg(test)]
mod large;
#[cfg(test)]
mod opened;
#[cfg(test)]
mod pairs;
#[cfg(test)]
mod ports;
#[cfg(test)]
mod real;
#[cfg(test)]
mod wrong;
