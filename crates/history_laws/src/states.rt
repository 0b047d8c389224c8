//! Laws on when a node is deactivated, expired and inactive, and when a purge removes it.
ghost use Rattle.history_laws.specs.StateLaws.{DeactivatedNodes, ExpiredNodes, InactiveNodes, PurgedNodes};

/// A node is deactivated exactly if no activity is later than its greatest deactivation. It is so from that timestamp on.
pub fn a_node_is_deactivated_where_no_activity_is_later()
    ensures { DeactivatedNodes }
{}

/// A node expires when its lifetime after its greatest activity ends. It is expired exactly if a sweep of expiry has a later
/// moment and the newest expiration command allows expiry.
pub fn a_node_expired_where_a_sweep_was_later()
    ensures { ExpiredNodes }
{}

/// A node is inactive exactly if it is deactivated or expired. A purge removes it exactly if it has been either for longer than
/// the purge lifetime.
pub fn a_node_is_inactive_where_it_is_deactivated_or_expired()
    ensures inactive { InactiveNodes }
    ensures purged { PurgedNodes }
{}
