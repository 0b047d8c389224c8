//! Computes what the rows of a change show before it is applied, and packs a report's lists.
ghost use Rattle.std.specs.Prelude.{◌≡◌, ◌<◌, ◌^◌, IfOk};
ghost use Rattle.checkpoint_spec.specs.history_spec.Lawful.{IsChange, IsReportChange};
ghost use Rattle.checkpoint_spec.specs.fleet_rows.declared.change.Change.TheVariants as changes;
ghost use Rattle.kept_nodes.specs.Packed.{AreListsOf};
ghost use Rattle.kept_nodes.specs.Computed.{IsShownOf, IsListFor, with_reports};
ghost use Rattle.kept_nodes.specs.declared.computed.Derived.TheVariants as kinds;

use crate::kept::{HeldReport, report_hash};
use crate::lists::room_for_more;
use crate::packed::PackedLists;
use crate::shown::{CatalogShown, FactsShown};
use fleet_rows::{Change, ReportChange};
use packed_shown::PackedHash;
use std::alloc::{AllocError, Global};

/// What the rows of a change show besides its fields, as far as it is computed.
#[derive(Drop)]
pub enum Derived {
    Facts(FactsShown),
    Catalog(CatalogShown),
    Report(ReportShown),
    Nothing,
}

#[derive(Drop)]
pub struct ReportShown {
    pub lists: PackedLists,
    /// The SHA-1 of the canonical text, if it is computed.
    pub hash: Option<PackedHash>,
    /// Memory for the report.
    pub held: HeldReport,
    /// Empty at first. Making room puts a list for one report more here.
    pub reports: Vec<HeldReport>,
    /// Any place at first. Making room puts its place here.
    pub place: Result<usize, usize>,
}

/// Computes everything that the change's rows show.
pub fn shown_by(alloc: Global, change: &Change) -> Result<Derived, AllocError>
    requires { IsChange change.now }
    ensures { IfOk result (λ s. IsShownOf s change.now) }
{
    match change {
        Change::Facts(change) => Ok(Derived::Facts(FactsShown::of(alloc, change)?)),
        Change::Catalog(change) => Ok(Derived::Catalog(CatalogShown::of(alloc, change)?)),
        Change::Report(change) => Ok(Derived::Report(report_shown(alloc, change)?)),
        Change::Deactivate(_) | Change::Expiration(_) => Ok(Derived::Nothing),
    }
}

/// Packs the lists of a report. Everything else is left for later.
pub fn needed_by(alloc: Global, change: &Change) -> Result<Derived, AllocError>
    requires { IsChange change.now }
    ensures { IfOk result (λ s. IsShownOf s change.now) }
{
    match change {
        Change::Facts(_) => Ok(Derived::Facts(FactsShown::none())),
        Change::Catalog(_) => Ok(Derived::Catalog(CatalogShown::none())),
        Change::Report(change) => Ok(Derived::Report(report_needed(alloc, change)?)),
        Change::Deactivate(_) | Change::Expiration(_) => Ok(Derived::Nothing),
    }
}

#[tactic(auto, using(crate::proofs::Printable::report_moments))]
fn report_shown(alloc: Global, change: &ReportChange) -> Result<ReportShown, AllocError>
    requires { IsReportChange change.now }
    ensures { IfOk result (λ s. IsShownOf (kinds.Report s) (changes.Report change.now)) }
{
    let hash = report_hash(alloc, change)?;
    report_with(alloc, change, Some(hash))
}

#[tactic(auto, using(crate::proofs::Printable::report_moments))]
fn report_needed(alloc: Global, change: &ReportChange) -> Result<ReportShown, AllocError>
    requires { IsReportChange change.now }
    ensures { IfOk result (λ s. IsShownOf (kinds.Report s) (changes.Report change.now)) }
{
    report_with(alloc, change, None)
}

fn report_with(
    alloc: Global,
    change: &ReportChange,
    hash: Option<PackedHash>,
) -> Result<ReportShown, AllocError>
    requires { IsReportChange change.now }
    ensures lists { IfOk result (λ s. AreListsOf s.lists change.now) }
    ensures hash { IfOk result (λ s. s.hash ≡ hash) }
{
    let lists = PackedLists::of(alloc, change)?;
    let held = HeldReport::blank(alloc)?;
    Ok(ReportShown {
        lists,
        hash,
        held,
        reports: Vec::new(alloc),
        place: Err(0),
    })
}

/// A list with room for a report at a node that keeps `reports` reports. Other changes take no memory here.
pub fn room_for_reports(
    alloc: Global,
    shown: &Derived,
    reports: usize,
) -> Result<Vec<HeldReport>, AllocError>
    requires { reports < 2 ^ 63 }
    ensures { IfOk result (λ room. IsListFor shown.now room reports) }
{
    match shown {
        Derived::Report(_) => room_for_more(alloc, reports),
        Derived::Facts(_) | Derived::Catalog(_) | Derived::Nothing => Ok(Vec::new(alloc)),
    }
}

impl Derived {
    /// Puts the list for a report, and its place, where they belong.
    pub fn with_reports(self, reports: Vec<HeldReport>, place: Result<usize, usize>) -> Derived
        ensures { result ≡ with_reports self reports place }
    {
        match self {
            Derived::Report(shown) => Derived::Report(ReportShown {
                reports,
                place,
                ..shown
            }),
            other => other,
        }
    }
}
