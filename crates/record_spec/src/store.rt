//! Defines the records of the store's log.
use history_spec::fleet_rows::{Change, Kinds, Mark};
use history_spec::stamp_time::Moment;

/// A record of the store's log; each frame has one.
#[derive(Drop)]
pub enum StoreRecord {
    /// Tag 0: the lifetimes of nodes, purges and reports in days. The number of kept reports is unlimited.
    Settings(u32, u32, u32),
    /// Tag 1: the greatest moments of sweeps of expiry and of reports before the log begins, and the receipt that was applied
    /// last.
    Base(Option<Moment>, Option<Moment>, Option<u64>),
    /// Tag 2: the greatest timestamps of a node's activity and of its deactivations.
    Marks(Mark),
    /// Tag 3: a change that was applied under this receipt. The moment of its receipt is unknown.
    Applied(u64, Change),
    /// Tag 4: a sweep and its moment.
    Swept(Kinds, Moment),
    /// Tag 5: a change that was applied under this receipt, and the moment at which it was received.
    Received(u64, Option<Moment>, Change),
    /// Tag 6: lifetimes in days as in `Settings`, and the greatest number of kept reports of a node.
    Limits(u32, u32, u32, u32),
}
