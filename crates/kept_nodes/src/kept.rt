//! The commands that a node keeps, with what is computed of them.
ghost use Rattle.std.specs.Prelude.{◌≡◌, IfOk, IfSome};
ghost use Rattle.checkpoint_spec.specs.history_spec.Report.{report_object};
ghost use Rattle.checkpoint_spec.specs.stamp_time.Range.{IsStampMoment};
ghost use Rattle.checkpoint_spec.specs.fleet_rows.declared.change.Change.TheVariants as changes;
ghost use Rattle.checkpoint_spec.specs.history_spec.Trace.{applied_as, rank_of};
ghost use Rattle.checkpoint_spec.specs.table_spec.Cells.{hash};
ghost use Rattle.row_cells.specs.Texts.{HasPrintableMoments};
ghost use Rattle.kept_nodes.specs.Packed.{AreListsOf};
ghost use Rattle.kept_nodes.specs.Kept.{IsReport};
ghost use Rattle.kept_nodes.specs.Seen.{facts_seen, catalog_seen, deactivation_seen, expiration_seen, report_seen};

use crate::packed::{PackedLists, PackedReport};
use crate::shown::{CatalogShown, FactsShown};
use fleet_rows::json_tree::Text;
use fleet_rows::stamp_time::Moment;
use fleet_rows::{
    CatalogChange, DeactivateChange, ExpirationChange, FactsChange, Rank, ReportChange, sha1_hex,
};
use packed_shown::PackedHash;
use row_cells::report_canonical;
use std::alloc::{AllocError, Global};
use std::marker::Model;

/// The newest facts.
#[derive(Drop)]
pub struct Factset {
    pub receipt: u64,
    pub received: Option<Moment>,
    pub change: FactsChange,
    pub shown: FactsShown,
}

/// The newest catalog.
#[derive(Drop)]
pub struct NodeCatalog {
    pub receipt: u64,
    pub received: Option<Moment>,
    pub change: CatalogChange,
    pub shown: CatalogShown,
}

/// The newest deactivation.
#[derive(Drop)]
pub struct Deactivation {
    pub receipt: u64,
    pub received: Option<Moment>,
    pub change: DeactivateChange,
}

/// The newest expiration command.
#[derive(Drop)]
pub struct Expiration {
    pub receipt: u64,
    pub received: Option<Moment>,
    pub change: ExpirationChange,
}

/// A kept report.
#[derive(Drop)]
pub struct Report {
    pub receipt: u64,
    pub received: Option<Moment>,
    pub change: PackedReport,
    /// The SHA-1 of its canonical text, if it is computed.
    pub hash: Option<PackedHash>,
}

/// A report in its own allocation, so that moving it in a list moves 8 bytes. Contracts see the report.
#[derive(Drop)]
pub struct HeldReport {
    report: Box<Report>,
}

impl Model for HeldReport {
    ghost use Rattle.std.specs.Coded.{codes};
    ghost use Rattle.checkpoint_spec.specs.text_spec.JsonCode.{coded_json};
    ghost use Rattle.kept_nodes.specs.declared.kept.Report.{Report};

    ghost Value = { Report };

    ghost coded = { Prim.hlevel (codes, coded_json) };

    ghost view = { λ a. a.report.value };
}

impl HeldReport {
    /// Allocates memory for a report, filled with a blank one.
    pub(crate) fn blank(alloc: Global) -> Result<HeldReport, AllocError> {
        let report = Box::new(alloc, Report::blank(alloc)?)?;
        Ok(HeldReport { report })
    }

    /// Stores the report in this memory.
    fn holding(self, report: Report) -> HeldReport
        ensures { result ≡ report }
    {
        let mut held = self.report;
        *held = report;
        HeldReport { report: held }
    }

    /// Keeps a report in this memory. Its lists were packed in advance, and its hash may be computed.
    pub(crate) fn keeping(
        self,
        receipt: u64,
        received: Option<Moment>,
        change: ReportChange,
        lists: PackedLists,
        digest: Option<PackedHash>,
    ) -> HeldReport
        requires lists { AreListsOf lists change }
        requires printable { HasPrintableMoments change }
        requires digest { IfSome digest (λ h. h ≡ hash (report_object change)) }
        requires stamp { IsStampMoment change.stamp }
        ensures kept { IsReport result }
        ensures seen { report_seen result ≡ applied_as receipt received (changes.Report change) }
    {
        self.holding(Report {
            receipt,
            received,
            change: PackedReport::of(change, lists),
            hash: digest,
        })
    }

    /// The kept report.
    pub fn report(&self) -> &Report
        ensures { result.now ≡ self.now }
    {
        &self.report
    }

    /// Computes the hash if it isn't computed yet.
    pub(crate) fn prepare(&mut self, alloc: Global) -> Result<(), AllocError>
        requires { IsReport self.old }
        ensures kept { IsReport self.new }
        ensures seen { report_seen self.new ≡ report_seen self.old }
    {
        self.report.prepare(alloc)
    }
}

impl Factset {
    pub(crate) fn rank(&self) -> Rank
        ensures { result ≡ rank_of (facts_seen self.now) }
    {
        Rank {
            stamp: self.change.stamp,
            receipt: self.receipt,
        }
    }
}

impl NodeCatalog {
    pub(crate) fn rank(&self) -> Rank
        ensures { result ≡ rank_of (catalog_seen self.now) }
    {
        Rank {
            stamp: self.change.stamp,
            receipt: self.receipt,
        }
    }
}

impl Deactivation {
    pub(crate) fn rank(&self) -> Rank
        ensures { result ≡ rank_of (deactivation_seen self.now) }
    {
        Rank {
            stamp: self.change.stamp,
            receipt: self.receipt,
        }
    }
}

impl Expiration {
    pub(crate) fn rank(&self) -> Rank
        ensures { result ≡ rank_of (expiration_seen self.now) }
    {
        Rank {
            stamp: self.change.stamp,
            receipt: self.receipt,
        }
    }
}

impl Report {
    // A blank report, which holds the memory until the real one comes.
    fn blank(alloc: Global) -> Result<Report, AllocError> {
        Ok(Report {
            receipt: 0,
            received: None,
            change: PackedReport::blank(alloc)?,
            hash: None,
        })
    }

    pub(crate) fn rank(&self) -> Rank
        ensures { result ≡ rank_of (report_seen self.now) }
    {
        Rank {
            stamp: self.change.stamp(),
            receipt: self.receipt,
        }
    }

    fn prepare(&mut self, alloc: Global) -> Result<(), AllocError>
        requires { IsReport self.old }
        ensures kept { IsReport self.new }
        ensures seen { report_seen self.new ≡ report_seen self.old }
    {
        if self.hash.is_none() {
            self.hash = Some(self.packed_digest(alloc)?);
        }
        Ok(())
    }

    /// The hash of the canonical text, as 40 hexadecimal digits.
    #[tactic(auto, using(crate::proofs::PackedLaws::printable_same))]
    pub(crate) fn digest(&self, alloc: Global) -> Result<Text, AllocError>
        requires { IsReport self.now }
        ensures { IfOk result (λ digest. digest ≡ hash (report_object self.now.change)) }
    {
        let change = self.change.unpack(alloc)?;
        report_digest(alloc, &change)
    }

    // The same, packed.
    fn packed_digest(&self, alloc: Global) -> Result<PackedHash, AllocError>
        requires { IsReport self.now }
        ensures { IfOk result (λ packed. packed ≡ hash (report_object self.now.change)) }
    {
        let digits = self.digest(alloc)?;
        Ok(PackedHash::of(&digits))
    }

    /// The hash of the report, computed if it isn't stored.
    pub(crate) fn digits(&self, alloc: Global) -> Result<Text, AllocError>
        requires { IsReport self.now }
        ensures { IfOk result (λ digits. digits ≡ hash (report_object self.now.change)) }
    {
        match &self.hash {
            Some(hash) => hash.digits(alloc),
            None => self.digest(alloc),
        }
    }
}

/// The hash of a report: the SHA-1 of its canonical text, as 40 hexadecimal digits.
pub(crate) fn report_digest(alloc: Global, change: &ReportChange) -> Result<Text, AllocError>
    requires { HasPrintableMoments change.now }
    ensures { IfOk result (λ digest. digest ≡ hash (report_object change.now)) }
{
    let text = report_canonical(alloc, change)?;
    sha1_hex(alloc, text.as_slice())
}

/// The same, packed.
pub(crate) fn report_hash(alloc: Global, change: &ReportChange) -> Result<PackedHash, AllocError>
    requires { HasPrintableMoments change.now }
    ensures { IfOk result (λ packed. packed ≡ hash (report_object change.now)) }
{
    let digits = report_digest(alloc, change)?;
    Ok(PackedHash::of(&digits))
}
