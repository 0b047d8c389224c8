//! A discarded command, as the definitions and the code share it.
use table_spec::fleet_rows::{Cause, Shared};

/// A discarded command, and why it was discarded.
#[derive(Drop)]
pub struct Dead {
    pub receipt: u64,
    pub command: Shared,
    pub cause: Cause,
}
