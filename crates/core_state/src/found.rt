//! Names the records that an opening found, for contracts alone.
use queue_log::QueueRecords;
use queue_log::fleet_keeper::StoreRecords;
use std::snapshot::Snapshot;

/// The records that an opening read in the two logs, before it wrote anything. They take no bytes: only contracts see them.
#[derive(Drop)]
pub struct Found {
    pub queue: Snapshot<QueueRecords>,
    pub store: Snapshot<StoreRecords>,
}
