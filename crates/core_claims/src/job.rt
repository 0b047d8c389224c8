//! A claimed command, as a worker holds it.
use fleet_rows::Shared;

/// A claimed command.
#[derive(Drop)]
pub struct Job {
    /// The receipt that a submit answered.
    pub receipt: u64,
    /// The command, which the core shares.
    pub command: Shared,
}
