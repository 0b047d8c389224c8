//! Stores a node: its newest commands, its activity and its kept reports.
ghost use Rattle.std.specs.Prelude.{◌≡◌, map, IfOk};
ghost use Rattle.checkpoint_spec.specs.table_machine.Steps.{empty_node};
ghost use Rattle.row_cells.specs.Texts.{HasPrintableMoments};
ghost use Rattle.kept_nodes.specs.Counted.{none, counts};
ghost use Rattle.kept_nodes.specs.Kept.{IsNode};
ghost use Rattle.kept_nodes.specs.ReportPlaces.{IsPlaceAmong};
ghost use Rattle.kept_nodes.specs.Seen.{node_seen, report_seen, newest_rank, is_outranked_by_none};

use crate::counts::Counts;
use crate::kept::{Deactivation, Expiration, Factset, HeldReport, NodeCatalog};
use crate::reports::place_of;
use fleet_rows::json_tree::Text;
use fleet_rows::stamp_time::Moment;
use fleet_rows::{Kind, Rank, ReportChange};
use std::alloc::{AllocError, Global};

/// What is stored of one node.
#[derive(Drop)]
pub struct Node {
    pub certname: Text,
    /// The greatest timestamp of its facts, catalogs and reports, including reports that a sweep removed.
    pub active: Option<Moment>,
    pub facts: Option<Factset>,
    pub catalog: Option<NodeCatalog>,
    pub deactivation: Option<Deactivation>,
    pub expiration: Option<Expiration>,
    pub reports: Vec<HeldReport>,
    /// The numbers of rows of the nodes before it in its group.
    pub before: Counts,
}

impl Node {
    /// A node of which only the certname is known. It allocates no memory.
    pub fn new(alloc: Global, certname: Text) -> Node
        ensures seen { node_seen result ≡ empty_node certname }
        ensures kept { IsNode result }
    {
        Node {
            certname,
            active: None,
            facts: None,
            catalog: None,
            deactivation: None,
            expiration: None,
            reports: Vec::new(alloc),
            before: Counts::none(),
        }
    }

    /// The numbers of the node's rows, including its own row of `nodes`.
    pub fn counts(&self) -> Counts
        ensures { result ≡ counts self.now }
    {
        let facts = match &self.facts {
            Some(factset) => factset.change.values.len(),
            None => 0,
        };
        let (resources, edges) = match &self.catalog {
            Some(catalog) => (
                catalog.change.resources.as_slice().len(),
                catalog.change.edges.as_slice().len(),
            ),
            None => (0, 0),
        };
        Counts {
            factsets: self.facts.is_some() as usize,
            facts,
            catalogs: self.catalog.is_some() as usize,
            resources,
            edges,
            reports: self.reports.len(),
            nodes: 1,
        }
    }

    /// The place of a report among those that are kept.
    pub fn place_for_report(
        &self,
        alloc: Global,
        report: &ReportChange,
    ) -> Result<Result<usize, usize>, AllocError>
        requires kept { IsNode self.now }
        requires printable { HasPrintableMoments report.now }
        ensures { IfOk result (IsPlaceAmong report.now (map report_seen self.now.reports.items)) }
    {
        place_of(alloc, self.reports.as_slice(), report)
    }

    /// The rank of the newest command of this kind; None for reports.
    pub fn newest(&self, kind: Kind) -> Option<Rank>
        ensures { result ≡ newest_rank kind (node_seen self.now) }
    {
        match kind {
            Kind::Facts => self.facts.as_ref().map(|kept| kept.rank()),
            Kind::Catalog => self.catalog.as_ref().map(|kept| kept.rank()),
            Kind::Report => None,
            Kind::Deactivate => self.deactivation.as_ref().map(|kept| kept.rank()),
            Kind::Expiration => self.expiration.as_ref().map(|kept| kept.rank()),
        }
    }

    /// Whether no kept command of this kind has a greater rank than this one.
    pub(crate) fn is_newest(&self, kind: Kind, rank: &Rank) -> bool
        ensures { result ≡ is_outranked_by_none rank.now (newest_rank kind (node_seen self.now)) }
    {
        match self.newest(kind) {
            Some(newest) => !rank.order(&newest).is_lt(),
            None => true,
        }
    }
}
