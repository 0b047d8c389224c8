//! Applies lifetimes: which nodes are deactivated, expired or to be purged, and which reports are kept.
ghost use Rattle.std.specs.Prelude.{◌≡◌, ◌≤◌, ◌+ℤ◌, ◌-ℤ◌, IfSome};
ghost use Rattle.checkpoint_spec.specs.stamp_time.Range.{IsStampMoment, IsPrintable};
ghost use Rattle.checkpoint_spec.specs.history_spec.Node.{days as days_of, is_before, newest_lets_expire};
ghost use Rattle.checkpoint_spec.specs.table_machine.Node.{node_deactivated, node_expired, node_inactive, node_purged};
ghost use Rattle.checkpoint_spec.specs.table_machine.Steps.{with_retained};
ghost use Rattle.kept_nodes.specs.Kept.{IsNode};
ghost use Rattle.kept_nodes.specs.Seen.{node_seen, is_retained_at};
ghost use Rattle.checkpoint_spec.specs.stamp_time.Limits.{most_days};

use crate::node::Node;
use fleet_rows::Ttls;
use fleet_rows::stamp_time::Moment;

const DAY: i128 = 86_400_000_000_000;

/// The moment `days` days later.
fn days_after(m: Moment, days: u32) -> Moment
    requires moment { IsStampMoment m }
    requires days { days ≤ most_days }
    ensures { result ≡ m +ℤ days_of days }
{
    Moment::from_nanosecond(m.as_nanosecond() + days as i128 * DAY)
}

/// The moment `days` days earlier.
fn days_before(m: Moment, days: u32) -> Moment
    requires moment { IsStampMoment m }
    requires days { days ≤ most_days }
    ensures { result ≡ m -ℤ days_of days }
{
    Moment::from_nanosecond(m.as_nanosecond() - days as i128 * DAY)
}

/// Whether a report with this timestamp isn't older than the report lifetime, counted back from the greatest sweep of reports.
pub(crate) fn is_retained(ttls: &Ttls, retention: &Option<Moment>, stamp: Moment) -> bool
    requires { IfSome retention.now IsStampMoment }
    ensures { result ≡ is_retained_at ttls.now retention.now stamp }
{
    match *retention {
        Some(sweep) => stamp >= days_before(sweep, ttls.report_days),
        None => true,
    }
}

impl Node {
    /// The moment of the node's deactivation, or None if it has none or an activity is later.
    pub(crate) fn deactivated(&self) -> Option<Moment>
        ensures { result ≡ node_deactivated (node_seen self.now) }
    {
        let stamp = self.deactivation.as_ref()?.change.stamp;
        match self.active {
            Some(active) if stamp < active => None,
            _ => Some(stamp),
        }
    }

    /// The moment at which the node expired, or None: its lifetime after its last activity, if a sweep of expiry has a later
    /// moment.
    pub(crate) fn expired(&self, ttls: &Ttls, expiry: &Option<Moment>) -> Option<Moment>
        requires { IsNode self.now }
        ensures value { result ≡ node_expired ttls.now expiry.now (node_seen self.now) }
        ensures printable { IfSome result IsPrintable }
    {
        if !self.may_expire() {
            return None;
        }
        let end = days_after(self.active?, ttls.node_days);
        match *expiry {
            Some(sweep) if end < sweep => Some(end),
            _ => None,
        }
    }

    fn may_expire(&self) -> bool
        ensures { result ≡ newest_lets_expire (node_seen self.now).expiration }
    {
        match &self.expiration {
            Some(kept) => kept.change.expire,
            None => true,
        }
    }

    /// Whether the node is deactivated or expired.
    pub fn is_inactive(&self, ttls: &Ttls, expiry: &Option<Moment>) -> bool
        requires { IsNode self.now }
        ensures { result ≡ node_inactive ttls.now expiry.now (node_seen self.now) }
    {
        self.deactivated().is_some() || self.expired(ttls, expiry).is_some()
    }

    /// Whether a purge at this moment removes the node.
    pub fn is_purged(&self, ttls: &Ttls, m: Moment, expiry: &Option<Moment>) -> bool
        requires kept { IsNode self.now }
        requires moment { IsStampMoment m }
        ensures { result ≡ node_purged ttls.now m expiry.now (node_seen self.now) }
    {
        let edge = days_before(m, ttls.purge_days);
        is_before(self.deactivated(), edge) || is_before(self.expired(ttls, expiry), edge)
    }

    /// Drops the reports that a sweep of reports removes.
    pub fn retain(&mut self, ttls: &Ttls, retention: &Option<Moment>)
        requires kept { IsNode self.old }
        requires retention { IfSome retention.now IsStampMoment }
        ensures seen { node_seen self.new ≡ with_retained ttls.now retention.now (node_seen self.old) }
        ensures kept { IsNode self.new }
    {
        self.reports.retain(|held| is_retained(ttls, retention, held.report().change.stamp()));
    }
}

fn is_before(moment: Option<Moment>, edge: Moment) -> bool
    ensures { result ≡ is_before moment edge }
{
    match moment {
        Some(m) => m < edge,
        None => false,
    }
}
