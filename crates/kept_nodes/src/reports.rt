//! Stores the kept reports of a node, sorted by timestamp, then by canonical text.
ghost use Rattle.std.specs.Prelude.{◌≡◌, ◌<◌, ◌≤◌, [], length, Some, Ok, Err, map, if◌then◌else◌, IfSome, IfOk};
ghost use Rattle.std.specs.List.{AllByRecursion, Contains, remove};
ghost use Rattle.std.specs.List.Sorted.{IsStrictlySortedBy};
ghost use Rattle.std.specs.Option.{option_map};
ghost use Rattle.std.specs.Ordering.{int_cmp, is_gt};
ghost use Rattle.std.specs.Vec.{vec_capacity};
ghost use Rattle.checkpoint_spec.specs.fleet_rows.declared.command.Kind.TheVariants as kind;
ghost use Rattle.checkpoint_spec.specs.history_spec.Node.{newest};
ghost use Rattle.checkpoint_spec.specs.text_spec.Compact.{text_cmp};
ghost use Rattle.checkpoint_spec.specs.history_spec.Report.{is_below, report_text};
ghost use Rattle.checkpoint_spec.specs.table_spec.Sorted.{report_cmp};
ghost use Rattle.checkpoint_spec.specs.table_machine.Steps.{put_report, without_least, limited};
ghost use Rattle.row_cells.specs.Texts.{HasPrintableMoments};
ghost use Rattle.kept_nodes.specs.Kept.{IsReport};
ghost use Rattle.kept_nodes.specs.ReportPlaces.{change_cmp, IsReportPlace, IsPlaceAmong};
ghost use Rattle.kept_nodes.specs.Seen.{report_seen};

use crate::kept::{HeldReport, Report};
use crate::lists::{insert_in_room, remove_at};
use crate::packed::PackedReport;
use fleet_rows::ReportChange;
use fleet_rows::json_tree::Bytes;
use row_cells::report_canonical;
use std::alloc::{AllocError, Global};
use std::cmp::Ordering;

/// Inserts the report at its place. If the reports then exceed the limit, the first of the least rank is removed. `room` is empty
/// and has room for these reports and one more.
pub(crate) fn add_report(
    reports: &mut Vec<HeldReport>,
    room: Vec<HeldReport>,
    place: Result<usize, usize>,
    limit: &Option<u32>,
    report: HeldReport,
)
    requires each { AllByRecursion IsReport reports.old.items }
    requires in_order { IsStrictlySortedBy report_cmp (map report_seen reports.old.items) }
    requires report { IsReport report }
    requires empty { room.items ≡ [] }
    requires room { length reports.old.items < vec_capacity room }
    requires place { IsReportPlace (report_seen report) (map report_seen reports.old.items) place }
    ensures seen { map report_seen reports.new.items ≡ limited limit.now (put_report (report_seen report) (map report_seen reports.old.items)) }
    ensures each { AllByRecursion IsReport reports.new.items }
    ensures in_order { IsStrictlySortedBy report_cmp (map report_seen reports.new.items) }
{
    put_report(reports, room, place, report);
    if let Some(limit) = limit {
        keep_within(reports, *limit as usize);
    }
}

// Inserts the report at its place. Of two reports with the same text, the one of greater rank stays.
fn put_report(
    reports: &mut Vec<HeldReport>,
    room: Vec<HeldReport>,
    place: Result<usize, usize>,
    report: HeldReport,
)
    requires each { AllByRecursion IsReport reports.old.items }
    requires in_order { IsStrictlySortedBy report_cmp (map report_seen reports.old.items) }
    requires report { IsReport report }
    requires empty { room.items ≡ [] }
    requires room { length reports.old.items < vec_capacity room }
    requires place { IsReportPlace (report_seen report) (map report_seen reports.old.items) place }
    ensures seen { map report_seen reports.new.items ≡ put_report (report_seen report) (map report_seen reports.old.items) }
    ensures each { AllByRecursion IsReport reports.new.items }
    ensures in_order { IsStrictlySortedBy report_cmp (map report_seen reports.new.items) }
{
    match place {
        Ok(at) => put_over(reports, at, report),
        Err(at) => put_between(reports, room, at, report),
    }
}

// Puts the report over the one at this index, which has the same text, unless that one has the greater rank.
fn put_over(reports: &mut Vec<HeldReport>, at: usize, report: HeldReport)
    requires each { AllByRecursion IsReport reports.old.items }
    requires in_order { IsStrictlySortedBy report_cmp (map report_seen reports.old.items) }
    requires report { IsReport report }
    requires within { at < length reports.old.items }
    requires place { IsReportPlace (report_seen report) (map report_seen reports.old.items) (Ok at) }
    ensures seen { map report_seen reports.new.items ≡ put_report (report_seen report) (map report_seen reports.old.items) }
    ensures each { AllByRecursion IsReport reports.new.items }
    ensures in_order { IsStrictlySortedBy report_cmp (map report_seen reports.new.items) }
{
    if !is_below(&report, &reports[at]) {
        reports[at] = report;
    }
}

// Inserts the report at this index.
fn put_between(reports: &mut Vec<HeldReport>, room: Vec<HeldReport>, at: usize, report: HeldReport)
    requires each { AllByRecursion IsReport reports.old.items }
    requires in_order { IsStrictlySortedBy report_cmp (map report_seen reports.old.items) }
    requires report { IsReport report }
    requires empty { room.items ≡ [] }
    requires room { length reports.old.items < vec_capacity room }
    requires within { at ≤ length reports.old.items }
    requires place { IsReportPlace (report_seen report) (map report_seen reports.old.items) (Err at) }
    ensures seen { map report_seen reports.new.items ≡ put_report (report_seen report) (map report_seen reports.old.items) }
    ensures each { AllByRecursion IsReport reports.new.items }
    ensures in_order { IsStrictlySortedBy report_cmp (map report_seen reports.new.items) }
{
    insert_in_room(reports, room, at, report);
}

// Removes the first report of the least rank if the reports exceed the limit.
fn keep_within(reports: &mut Vec<HeldReport>, limit: usize)
    requires each { AllByRecursion IsReport reports.old.items }
    requires in_order { IsStrictlySortedBy report_cmp (map report_seen reports.old.items) }
    ensures seen { map report_seen reports.new.items ≡ limited (Some limit) (map report_seen reports.old.items) }
    ensures each { AllByRecursion IsReport reports.new.items }
    ensures in_order { IsStrictlySortedBy report_cmp (map report_seen reports.new.items) }
{
    if reports.len() > limit {
        let least = place_of_least(reports.as_slice());
        remove_at(reports, least);
    }
}

// The index of the first report of the least rank. It is among those with the first timestamp, since reports are sorted by it.
fn place_of_least(reports: &[HeldReport]) -> usize
    requires some { 0 < length reports.now }
    requires in_order { IsStrictlySortedBy report_cmp (map report_seen reports.now) }
    ensures place { result < length reports.now }
    ensures least { without_least (map report_seen reports.now) ≡ remove (map report_seen reports.now) result }
{
    let mut least = 0;
    'reports: for at in 1..reports.len() {
        if is_later(&reports[at], &reports[least]) {
            return least;
        }
        if is_below(&reports[at], &reports[least]) {
            least = at;
        }
    }
    least
}

/// Ok: the index of a report with the same timestamp and text. Err: the index at which the report would be inserted. Reports are
/// sorted by timestamp, then by canonical text. A text is made only for a report with the same timestamp, so mostly for none.
pub(crate) fn place_of(
    alloc: Global,
    reports: &[HeldReport],
    change: &ReportChange,
) -> Result<Result<usize, usize>, AllocError>
    requires each { AllByRecursion IsReport reports.now }
    requires in_order { IsStrictlySortedBy report_cmp (map report_seen reports.now) }
    requires printable { HasPrintableMoments change.now }
    ensures { IfOk result (IsPlaceAmong change.now (map report_seen reports.now)) }
{
    let mut low = 0;
    let mut high = reports.len();
    'halves: while low < high {
        let middle = low + (high - low) / 2;
        let order = compare(alloc, reports[middle].report(), change)?;
        match order {
            Ordering::Less => low = middle + 1,
            Ordering::Equal => return Ok(Ok(middle)),
            Ordering::Greater => high = middle,
        }
    }
    Ok(Err(low))
}

fn compare(alloc: Global, kept: &Report, change: &ReportChange) -> Result<Ordering, AllocError>
    requires kept { IsReport kept.now }
    requires printable { HasPrintableMoments change.now }
    ensures { IfOk result (λ o. o ≡ change_cmp kept.now.change change.now) }
{
    match kept.change.stamp().cmp(&change.stamp) {
        Ordering::Equal => text_order(alloc, &kept.change, change),
        unequal => Ok(unequal),
    }
}

// The order of the canonical texts.
fn text_order(
    alloc: Global,
    kept: &PackedReport,
    change: &ReportChange,
) -> Result<Ordering, AllocError>
    requires kept { HasPrintableMoments kept.now }
    requires printable { HasPrintableMoments change.now }
    ensures { IfOk result (λ o. o ≡ text_cmp (report_text kept.now) (report_text change.now)) }
{
    let text = text_of(alloc, kept)?;
    let other = report_canonical(alloc, change)?;
    Ok(text.as_slice().cmp(other.as_slice()))
}

// The canonical text of a packed report.
#[tactic(auto, using(crate::proofs::PackedLaws::printable_same))]
fn text_of(alloc: Global, kept: &PackedReport) -> Result<Bytes, AllocError>
    requires { HasPrintableMoments kept.now }
    ensures { IfOk result (λ text. text ≡ report_text kept.now) }
{
    let change = kept.unpack(alloc)?;
    report_canonical(alloc, &change)
}

fn is_later(a: &HeldReport, b: &HeldReport) -> bool
    ensures { result ≡ is_gt (int_cmp a.now.change.stamp b.now.change.stamp) }
{
    a.report()
        .change
        .stamp()
        .cmp(&b.report().change.stamp())
        .is_gt()
}

/// The report of the greatest rank, or None if there are no reports.
pub(crate) fn latest(reports: &[HeldReport]) -> Option<&HeldReport>
    ensures which { option_map (λ r. report_seen r.now) result ≡ newest kind.Report (map report_seen reports.now) }
    ensures among { IfSome result (λ r. Contains reports.now r.now) }
{
    let mut latest = None;
    'reports: for report in reports {
        latest = match latest {
            Some(other) => Some(of_greater_rank(other, report)),
            None => Some(report),
        };
    }
    latest
}

/// The index of the report of the greatest rank. Its contract says only that there is such a report.
pub(crate) fn place_of_latest(reports: &[HeldReport]) -> usize
    requires some { 0 < length reports.now }
    ensures place { result < length reports.now }
{
    let mut latest = 0;
    'reports: for at in 1..reports.len() {
        if is_below(&reports[latest], &reports[at]) {
            latest = at;
        }
    }
    latest
}

/// The second report if its rank is greater, otherwise the first.
fn of_greater_rank<'a>(a: &'a HeldReport, b: &'a HeldReport) -> &'a HeldReport
    ensures { result.now ≡ (if is_below (report_seen a.now) (report_seen b.now) then b.now else a.now) }
{
    if is_below(a, b) { b } else { a }
}

fn is_below(a: &HeldReport, b: &HeldReport) -> bool
    ensures { result ≡ is_below (report_seen a.now) (report_seen b.now) }
{
    a.report().rank().order(&b.report().rank()).is_lt()
}
