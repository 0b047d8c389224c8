//! Keeps a report with its lists packed.
//!
//! A report's lists are most of its bytes, and rows of `reports` alone show them. As trees they take three times as many bytes as
//! their texts. Everything else of a report is read where it is kept.
ghost use Rattle.std.specs.Prelude.{◌≡◌, Some, IfOk};
ghost use Rattle.checkpoint_spec.specs.fleet_rows.declared.change.Change.TheVariants as changes;
ghost use Rattle.checkpoint_spec.specs.history_spec.Lawful.{IsReportChange};
ghost use Rattle.checkpoint_spec.specs.history_spec.Report.{report_object};
ghost use Rattle.checkpoint_spec.specs.table_spec.Cells.{hash};
ghost use Rattle.row_cells.specs.Nodes.{IsHeadOf};
ghost use Rattle.kept_nodes.specs.Packed.{AreListsOf};

use fleet_rows::ReportChange;
use fleet_rows::json_tree::{Items, Text};
use fleet_rows::stamp_time::Moment;
use packed_values::PackedItems;
use row_cells::ReportHead;
use std::alloc::{AllocError, Global};
use std::marker::Model;

/// The lists of a report, packed.
#[derive(Drop)]
pub struct PackedLists {
    pub resources: PackedItems,
    pub logs: PackedItems,
    pub metrics: PackedItems,
}

/// A report's change, with its lists packed. Contracts see the change.
#[derive(Drop)]
pub struct PackedReport {
    certname: Text,
    environment: Option<Text>,
    puppet_version: Option<Text>,
    report_format: Option<u64>,
    configuration_version: Option<Text>,
    start_time: Option<Moment>,
    end_time: Option<Moment>,
    stamp: Moment,
    producer: Option<Text>,
    noop: Option<bool>,
    status: Option<Text>,
    transaction_uuid: Option<Text>,
    lists: PackedLists,
}

impl Model for PackedReport {
    ghost use Rattle.std.specs.Coded.{codes};
    ghost use Rattle.checkpoint_spec.specs.text_spec.JsonCode.{coded_json};
    ghost use Rattle.checkpoint_spec.specs.fleet_rows.declared.change.ReportChange.{ReportChange};

    ghost Value = { ReportChange };

    ghost coded = { Prim.hlevel (codes, coded_json) };

    ghost view = { λ a. record {
      certname = a.certname;
      environment = a.environment;
      puppet_version = a.puppet_version;
      report_format = a.report_format;
      configuration_version = a.configuration_version;
      start_time = a.start_time;
      end_time = a.end_time;
      stamp = a.stamp;
      producer = a.producer;
      noop = a.noop;
      status = a.status;
      transaction_uuid = a.transaction_uuid;
      resources = a.lists.resources;
      logs = a.lists.logs;
      metrics = a.lists.metrics;
    } };
}

impl PackedLists {
    /// The lists of the report, packed.
    #[tactic(auto, using(crate::proofs::PackedLaws::list_values, crate::proofs::PackedLaws::list_levels))]
    pub(crate) fn of(alloc: Global, change: &ReportChange) -> Result<PackedLists, AllocError>
        requires { IsReportChange change.now }
        ensures { IfOk result (λ lists. AreListsOf lists change.now) }
    {
        let resources = PackedItems::pack(alloc, &change.resources)?;
        let logs = PackedItems::pack(alloc, &change.logs)?;
        let metrics = PackedItems::pack(alloc, &change.metrics)?;
        Ok(PackedLists {
            resources,
            logs,
            metrics,
        })
    }

    // Three empty lists.
    #[tactic(auto, using(crate::proofs::PackedLaws::none_values, crate::proofs::PackedLaws::none_levels))]
    fn empty(alloc: Global) -> Result<PackedLists, AllocError> {
        let none = Items::new(alloc);
        let resources = PackedItems::pack(alloc, &none)?;
        let logs = PackedItems::pack(alloc, &none)?;
        let metrics = PackedItems::pack(alloc, &none)?;
        Ok(PackedLists {
            resources,
            logs,
            metrics,
        })
    }

    // The resources, the logs and the metrics.
    fn unpack(&self, alloc: Global) -> Result<(Items, Items, Items), AllocError>
        ensures { IfOk result (λ lists. (lists.0 ≡ self.now.resources) × (lists.1 ≡ self.now.logs) × (lists.2 ≡ self.now.metrics)) }
    {
        let resources = self.resources.unpack(alloc)?;
        let logs = self.logs.unpack(alloc)?;
        let metrics = self.metrics.unpack(alloc)?;
        Ok((resources, logs, metrics))
    }
}

impl PackedReport {
    /// The report, whose packed lists were made in advance. It takes no memory.
    pub(crate) fn of(change: ReportChange, lists: PackedLists) -> PackedReport
        requires { AreListsOf lists change }
        ensures { result ≡ change }
    {
        let ReportChange {
            certname,
            environment,
            puppet_version,
            report_format,
            configuration_version,
            start_time,
            end_time,
            stamp,
            producer,
            noop,
            status,
            transaction_uuid,
            resources,
            logs,
            metrics,
        } = change;
        drop((resources, logs, metrics));
        PackedReport {
            certname,
            environment,
            puppet_version,
            report_format,
            configuration_version,
            start_time,
            end_time,
            stamp,
            producer,
            noop,
            status,
            transaction_uuid,
            lists,
        }
    }

    /// A blank report, which holds memory until the real one comes.
    pub(crate) fn blank(alloc: Global) -> Result<PackedReport, AllocError> {
        let lists = PackedLists::empty(alloc)?;
        Ok(PackedReport {
            certname: Text::from_str(alloc, "")?,
            environment: None,
            puppet_version: None,
            report_format: None,
            configuration_version: None,
            start_time: None,
            end_time: None,
            stamp: Moment::from_nanosecond(0),
            producer: None,
            noop: None,
            status: None,
            transaction_uuid: None,
            lists,
        })
    }

    /// What the row of the node shows of the report. `digest` is its hash.
    pub(crate) fn head<'a>(&'a self, digest: &'a Text) -> ReportHead<'a>
        requires { digest.now ≡ hash (report_object self.now) }
        ensures { IsHeadOf (Some result) (Some (changes.Report self.now)) }
    {
        ReportHead {
            digest,
            noop: self.noop,
            status: &self.status,
            environment: &self.environment,
            stamp: self.stamp,
        }
    }

    /// The report's change, as a copy.
    pub(crate) fn unpack(&self, alloc: Global) -> Result<ReportChange, AllocError>
        ensures { IfOk result (λ change. change ≡ self.now) }
    {
        let (resources, logs, metrics) = self.lists.unpack(alloc)?;
        Ok(ReportChange {
            certname: copy_text(alloc, &self.certname)?,
            environment: copy_optional(alloc, &self.environment)?,
            puppet_version: copy_optional(alloc, &self.puppet_version)?,
            report_format: self.report_format,
            configuration_version: copy_optional(alloc, &self.configuration_version)?,
            start_time: self.start_time,
            end_time: self.end_time,
            stamp: self.stamp,
            producer: copy_optional(alloc, &self.producer)?,
            noop: self.noop,
            status: copy_optional(alloc, &self.status)?,
            transaction_uuid: copy_optional(alloc, &self.transaction_uuid)?,
            resources,
            logs,
            metrics,
        })
    }
}

// What is kept of a report, by reference. So a reader of these columns, or of the lists' texts, unpacks nothing.
impl PackedReport {
    /// The lists as they are kept.
    pub fn lists(&self) -> &PackedLists
        ensures { AreListsOf result.now self.now }
    {
        &self.lists
    }

    pub fn certname(&self) -> &Text
        ensures { result.now ≡ self.now.certname }
    {
        &self.certname
    }

    pub fn environment(&self) -> &Option<Text>
        ensures { result.now ≡ self.now.environment }
    {
        &self.environment
    }

    pub fn puppet_version(&self) -> &Option<Text>
        ensures { result.now ≡ self.now.puppet_version }
    {
        &self.puppet_version
    }

    pub fn report_format(&self) -> Option<u64>
        ensures { result ≡ self.now.report_format }
    {
        self.report_format
    }

    pub fn configuration_version(&self) -> &Option<Text>
        ensures { result.now ≡ self.now.configuration_version }
    {
        &self.configuration_version
    }

    pub fn start_time(&self) -> Option<Moment>
        ensures { result ≡ self.now.start_time }
    {
        self.start_time
    }

    pub fn end_time(&self) -> Option<Moment>
        ensures { result ≡ self.now.end_time }
    {
        self.end_time
    }

    /// The producer's timestamp.
    pub fn stamp(&self) -> Moment
        ensures { result ≡ self.now.stamp }
    {
        self.stamp
    }

    pub fn producer(&self) -> &Option<Text>
        ensures { result.now ≡ self.now.producer }
    {
        &self.producer
    }

    pub fn noop(&self) -> Option<bool>
        ensures { result ≡ self.now.noop }
    {
        self.noop
    }

    pub fn status(&self) -> &Option<Text>
        ensures { result.now ≡ self.now.status }
    {
        &self.status
    }

    pub fn transaction_uuid(&self) -> &Option<Text>
        ensures { result.now ≡ self.now.transaction_uuid }
    {
        &self.transaction_uuid
    }
}

fn copy_text(alloc: Global, text: &Text) -> Result<Text, AllocError>
    ensures { IfOk result (λ copied. copied ≡ text.now) }
{
    Text::from_str(alloc, text.as_str())
}

fn copy_optional(alloc: Global, text: &Option<Text>) -> Result<Option<Text>, AllocError>
    ensures { IfOk result (λ copied. copied ≡ text.now) }
{
    match text {
        None => Ok(None),
        Some(text) => Ok(Some(copy_text(alloc, text)?)),
    }
}
