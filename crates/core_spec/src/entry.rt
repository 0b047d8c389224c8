//! A pending command, as the definitions and the code share it.
use json_read::stamp_time::Moment;
use table_spec::fleet_rows::{Group, Shared};

/// A pending command: queued or claimed.
#[derive(Drop)]
pub struct Entry {
    pub receipt: u64,
    pub command: Shared,
    /// The group within which newer commands supersede it, and its producer timestamp. None for a command without a group.
    pub group: Option<(Group, Moment)>,
    /// The number of times that the store failed at it.
    pub attempts: u32,
    pub claimed: bool,
}
