//! Applies a command to its node.
ghost use Rattle.std.specs.Prelude.{◌≡◌, ℤ, [], Option, false, map, IfSome};
ghost use Rattle.std.specs.List.{AllByRecursion};
ghost use Rattle.std.specs.List.Sorted.{IsStrictlySortedBy};
ghost use Rattle.checkpoint_spec.specs.stamp_time.Range.{IsStampMoment};
ghost use Rattle.checkpoint_spec.specs.fleet_rows.Change.{change_stamp};
ghost use Rattle.checkpoint_spec.specs.fleet_rows.declared.change.Change.TheVariants as changes;
ghost use Rattle.checkpoint_spec.specs.fleet_rows.declared.settings.Ttls.{Ttls};
ghost use Rattle.checkpoint_spec.specs.history_spec.Node.{later};
ghost use Rattle.checkpoint_spec.specs.history_spec.Trace.{applied_as};
ghost use Rattle.checkpoint_spec.specs.table_spec.Sorted.{report_cmp};
ghost use Rattle.checkpoint_spec.specs.table_machine.Steps.{with_applied, put_report, limited};
ghost use Rattle.kept_nodes.specs.Counted.{counts};
ghost use Rattle.kept_nodes.specs.Kept.{IsNode, IsReport};
ghost use Rattle.kept_nodes.specs.Computed.{IsShownFor};
ghost use Rattle.kept_nodes.specs.Seen.{node_seen, report_seen};
ghost use Rattle.kept_nodes.specs.declared.computed.Derived.TheVariants as kinds;

use crate::computed::{Derived, ReportShown};
use crate::kept::{Deactivation, Expiration, Factset, HeldReport, NodeCatalog};
use crate::node::Node;
use crate::reports::add_report;
use crate::shown::{CatalogShown, FactsShown};
use crate::times::is_retained;
use fleet_rows::stamp_time::Moment;
use fleet_rows::{
    CatalogChange, Change, DeactivateChange, ExpirationChange, FactsChange, Kind, Rank,
    ReportChange, Ttls,
};

impl Node {
    /// Applies a command. Returns whether the numbers of the node's rows changed.
    pub fn apply(
        &mut self,
        ttls: &Ttls,
        retention: &Option<Moment>,
        receipt: u64,
        received: Option<Moment>,
        change: Change,
        shown: Derived,
    ) -> bool
        requires kept { IsNode self.old }
        requires shown { IsShownFor shown change (map report_seen self.old.reports.items) }
        requires stamp { IsStampMoment (change_stamp change) }
        requires retention { IfSome retention.now IsStampMoment }
        ensures seen { node_seen self.new ≡ with_applied ttls.now retention.now (applied_as receipt received change) (node_seen self.old) }
        ensures kept { IsNode self.new }
        ensures before { self.new.before ≡ self.old.before }
        ensures counts { result ≡ false → counts self.new ≡ counts self.old }
    {
        let counts = self.counts();
        self.put(ttls, retention, receipt, received, change, shown);
        self.counts() != counts
    }

    fn put(
        &mut self,
        ttls: &Ttls,
        retention: &Option<Moment>,
        receipt: u64,
        received: Option<Moment>,
        change: Change,
        shown: Derived,
    )
        requires kept { IsNode self.old }
        requires shown { IsShownFor shown change (map report_seen self.old.reports.items) }
        requires stamp { IsStampMoment (change_stamp change) }
        requires retention { IfSome retention.now IsStampMoment }
        ensures seen { node_seen self.new ≡ with_applied ttls.now retention.now (applied_as receipt received change) (node_seen self.old) }
        ensures kept { IsNode self.new }
        ensures before { self.new.before ≡ self.old.before }
    {
        match (change, shown) {
            (Change::Facts(change), Derived::Facts(shown)) => self.put_facts(
                receipt, received, change, shown,
            ),
            (Change::Catalog(change), Derived::Catalog(shown)) => {
                self.put_catalog(receipt, received, change, shown)
            }
            (Change::Report(change), Derived::Report(shown)) => {
                self.put_report(ttls, retention, receipt, received, change, shown)
            }
            (Change::Deactivate(change), _) => self.put_deactivation(receipt, received, change),
            (Change::Expiration(change), _) => self.put_expiration(receipt, received, change),
            _ => unreachable!(),
        }
    }

    fn put_facts(
        &mut self,
        receipt: u64,
        received: Option<Moment>,
        change: FactsChange,
        shown: FactsShown,
    )
        requires kept { IsNode self.old }
        requires shown { IsShownFor (kinds.Facts shown) (changes.Facts change) [] }
        requires stamp { IsStampMoment change.stamp }
        ensures seen { (ttls : Ttls) (retention : Option ℤ)
            → node_seen self.new ≡ with_applied ttls retention (applied_as receipt received (changes.Facts change)) (node_seen self.old) }
        ensures kept { IsNode self.new }
        ensures before { self.new.before ≡ self.old.before }
    {
        let rank = Rank {
            stamp: change.stamp,
            receipt,
        };
        self.wake(change.stamp);
        if self.is_newest(Kind::Facts, &rank) {
            self.facts = Some(Factset {
                receipt,
                received,
                change,
                shown,
            });
        }
    }

    fn put_catalog(
        &mut self,
        receipt: u64,
        received: Option<Moment>,
        change: CatalogChange,
        shown: CatalogShown,
    )
        requires kept { IsNode self.old }
        requires shown { IsShownFor (kinds.Catalog shown) (changes.Catalog change) [] }
        requires stamp { IsStampMoment change.stamp }
        ensures seen { (ttls : Ttls) (retention : Option ℤ)
            → node_seen self.new ≡ with_applied ttls retention (applied_as receipt received (changes.Catalog change)) (node_seen self.old) }
        ensures kept { IsNode self.new }
        ensures before { self.new.before ≡ self.old.before }
    {
        let rank = Rank {
            stamp: change.stamp,
            receipt,
        };
        self.wake(change.stamp);
        if self.is_newest(Kind::Catalog, &rank) {
            self.catalog = Some(NodeCatalog {
                receipt,
                received,
                change,
                shown,
            });
        }
    }

    fn put_report(
        &mut self,
        ttls: &Ttls,
        retention: &Option<Moment>,
        receipt: u64,
        received: Option<Moment>,
        change: ReportChange,
        shown: ReportShown,
    )
        requires kept { IsNode self.old }
        requires shown { IsShownFor (kinds.Report shown) (changes.Report change) (map report_seen self.old.reports.items) }
        requires stamp { IsStampMoment change.stamp }
        requires retention { IfSome retention.now IsStampMoment }
        ensures seen { node_seen self.new ≡ with_applied ttls.now retention.now (applied_as receipt received (changes.Report change)) (node_seen self.old) }
        ensures kept { IsNode self.new }
        ensures before { self.new.before ≡ self.old.before }
    {
        self.wake(change.stamp);
        if is_retained(ttls, retention, change.stamp) {
            keep_report(
                &mut self.reports,
                &ttls.report_count,
                receipt,
                received,
                change,
                shown,
            );
        }
    }

    fn put_deactivation(&mut self, receipt: u64, received: Option<Moment>, change: DeactivateChange)
        requires kept { IsNode self.old }
        ensures seen { (ttls : Ttls) (retention : Option ℤ)
            → node_seen self.new ≡ with_applied ttls retention (applied_as receipt received (changes.Deactivate change)) (node_seen self.old) }
        ensures kept { IsNode self.new }
        ensures before { self.new.before ≡ self.old.before }
    {
        let rank = Rank {
            stamp: change.stamp,
            receipt,
        };
        if self.is_newest(Kind::Deactivate, &rank) {
            self.deactivation = Some(Deactivation {
                receipt,
                received,
                change,
            });
        }
    }

    fn put_expiration(&mut self, receipt: u64, received: Option<Moment>, change: ExpirationChange)
        requires kept { IsNode self.old }
        ensures seen { (ttls : Ttls) (retention : Option ℤ)
            → node_seen self.new ≡ with_applied ttls retention (applied_as receipt received (changes.Expiration change)) (node_seen self.old) }
        ensures kept { IsNode self.new }
        ensures before { self.new.before ≡ self.old.before }
    {
        let rank = Rank {
            stamp: change.stamp,
            receipt,
        };
        if self.is_newest(Kind::Expiration, &rank) {
            self.expiration = Some(Expiration {
                receipt,
                received,
                change,
            });
        }
    }

    // Records that the node was active at this timestamp.
    fn wake(&mut self, stamp: Moment)
        requires kept { IsNode self.old }
        requires stamp { IsStampMoment stamp }
        ensures woken { self.new ≡ record self.old { active = later stamp self.old.active } }
        ensures kept { IsNode self.new }
    {
        self.active = later(stamp, self.active);
    }
}

// Keeps a report among these of its node, in the room that was made for it.
fn keep_report(
    reports: &mut Vec<HeldReport>,
    limit: &Option<u32>,
    receipt: u64,
    received: Option<Moment>,
    change: ReportChange,
    shown: ReportShown,
)
    requires each { AllByRecursion IsReport reports.old.items }
    requires in_order { IsStrictlySortedBy report_cmp (map report_seen reports.old.items) }
    requires shown { IsShownFor (kinds.Report shown) (changes.Report change) (map report_seen reports.old.items) }
    requires stamp { IsStampMoment change.stamp }
    ensures seen { map report_seen reports.new.items
        ≡ limited limit.now (put_report (applied_as receipt received (changes.Report change)) (map report_seen reports.old.items)) }
    ensures each { AllByRecursion IsReport reports.new.items }
    ensures in_order { IsStrictlySortedBy report_cmp (map report_seen reports.new.items) }
{
    let report = shown
        .held
        .keeping(receipt, received, change, shown.lists, shown.hash);
    add_report(reports, shown.reports, shown.place, limit, report);
}

/// The later of two moments.
pub fn later(m: Moment, other: Option<Moment>) -> Option<Moment>
    ensures { result ≡ later m other }
{
    match other {
        Some(n) if m < n => Some(n),
        _ => Some(m),
    }
}
