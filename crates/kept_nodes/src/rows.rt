//! Makes rows of a node by their index.
ghost use Rattle.std.specs.Prelude.{◌≡◌, ◌≢◌, ℤ, ◌<◌, length, map, Some, Option, option_map, IfOk, IfSome, IsSome};
ghost use Rattle.std.specs.List.{AllByRecursion};
ghost use Rattle.checkpoint_spec.specs.fleet_rows.declared.change.Change.TheVariants as changes;
ghost use Rattle.checkpoint_spec.specs.fleet_rows.declared.command.Kind.TheVariants as kind;
ghost use Rattle.checkpoint_spec.specs.fleet_rows.declared.row.Entity.TheVariants as entities;
ghost use Rattle.checkpoint_spec.specs.fleet_rows.declared.settings.Ttls.{Ttls};
ghost use Rattle.checkpoint_spec.specs.history_spec.Node.{newest};
ghost use Rattle.checkpoint_spec.specs.table_spec.Cells.{hash, factset_object, catalog_object, factset_cells, catalog_cells, report_cells};
ghost use Rattle.checkpoint_spec.specs.table_spec.Rows.{change_of, fact_rows, resource_rows, edge_rows};
ghost use Rattle.row_cells.specs.Nodes.{facts_of, catalog_of, IsHeadOf};
ghost use Rattle.row_cells.specs.Rows.{IsRow};
ghost use Rattle.kept_nodes.specs.Counted.{counts, count_of};
ghost use Rattle.kept_nodes.specs.Kept.{IsFactset, IsFactOrder, IsCatalog, AreResourcesShown, IsEdgeOrder, IsReport, IsNode};
ghost use Rattle.checkpoint_spec.specs.table_machine.Rows.{node_rows};
ghost use Rattle.kept_nodes.specs.Rows.{IsRowAt};
ghost use Rattle.kept_nodes.specs.Seen.{node_seen, facts_seen, catalog_seen, report_seen};

use crate::kept::{Factset, HeldReport, NodeCatalog, Report, report_digest};
use crate::node::Node;
use crate::reports::latest;
use crate::shown::{ResourcesShown, edges_order, facts_order};
use fleet_rows::json_tree::Text;
use fleet_rows::stamp_time::Moment;
use fleet_rows::{CatalogChange, Entity, FactsChange, Row, Ttls};
use packed_shown::PackedOrder;
use row_cells::{
    ReportHead, catalog_row, edge_row, fact_row, factset_hash, factset_row, node_row, report_row,
    resource_row,
};
use std::alloc::{AllocError, Global};

impl Node {
    // The row of the node itself.
    #[tactic(auto, using(crate::proofs::RowPlaces::head_for, crate::proofs::RowPlaces::no_head))]
    pub fn own_row(
        &self,
        alloc: Global,
        ttls: &Ttls,
        expiry: &Option<Moment>,
    ) -> Result<Row, AllocError>
        requires { IsNode self.now }
        ensures { IfOk result (λ row. IsRowAt row entities.Nodes (node_rows entities.Nodes ttls.now expiry.now (node_seen self.now)) 0) }
    {
        match self.latest_report() {
            Some(report) => {
                let hash = report.digits(alloc)?;
                self.row_with(alloc, ttls, expiry, &Some(report.change.head(&hash)))
            }
            None => self.row_with(alloc, ttls, expiry, &None),
        }
    }

    // The node's row with the head of its latest report.
    fn row_with(
        &self,
        alloc: Global,
        ttls: &Ttls,
        expiry: &Option<Moment>,
        report: &Option<ReportHead>,
    ) -> Result<Row, AllocError>
        requires kept { IsNode self.now }
        requires report { IsHeadOf report.now (change_of (newest kind.Report (map report_seen self.now.reports.items))) }
        ensures { IfOk result (λ row. IsRowAt row entities.Nodes (node_rows entities.Nodes ttls.now expiry.now (node_seen self.now)) 0) }
    {
        node_row(
            alloc,
            &self.certname,
            self.deactivated(),
            self.expired(ttls, expiry),
            self.newest_facts(),
            self.newest_catalog(),
            report,
        )
    }

    fn newest_facts(&self) -> Option<&FactsChange>
        ensures { facts_of result ≡ change_of (option_map facts_seen self.now.facts) }
    {
        match &self.facts {
            Some(kept) => Some(&kept.change),
            None => None,
        }
    }

    fn newest_catalog(&self) -> Option<&CatalogChange>
        ensures { catalog_of result ≡ change_of (option_map catalog_seen self.now.catalog) }
    {
        match &self.catalog {
            Some(kept) => Some(&kept.change),
            None => None,
        }
    }

    fn latest_report(&self) -> Option<&Report>
        requires { AllByRecursion IsReport self.now.reports.items }
        ensures kept { IfSome result (λ r. IsReport r.now) }
        ensures report { option_map (λ r. report_seen r.now) result ≡ newest kind.Report (map report_seen self.now.reports.items) }
    {
        match latest(self.reports.as_slice()) {
            Some(held) => Some(held.report()),
            None => None,
        }
    }

    // Row j of the node's rows of an entity other than `nodes`.
    pub fn row(&self, alloc: Global, entity: Entity, j: usize) -> Result<Row, AllocError>
        requires kept { IsNode self.now }
        requires other { entity ≢ entities.Nodes }
        requires within { j < count_of entity (counts self.now) }
        ensures { IfOk result (λ row. (ttls : Ttls) (expiry : Option ℤ) → IsRowAt row entity (node_rows entity ttls expiry (node_seen self.now)) j) }
    {
        match entity {
            Entity::Nodes => unreachable!(),
            Entity::Factsets => self.factset().row(alloc),
            Entity::Facts => self.factset().fact_row(alloc, j),
            Entity::Catalogs => self.node_catalog().row(alloc),
            Entity::Resources => self.node_catalog().resource_row(alloc, j),
            Entity::Edges => self.node_catalog().edge_row(alloc, j),
            Entity::Reports => self.reports[j].row(alloc),
            _ => unreachable!(),
        }
    }

    fn factset(&self) -> &Factset
        requires { IsSome self.now.facts }
        ensures { self.now.facts ≡ Some result.now }
    {
        match &self.facts {
            Some(kept) => kept,
            None => unreachable!(),
        }
    }

    fn node_catalog(&self) -> &NodeCatalog
        requires { IsSome self.now.catalog }
        ensures { self.now.catalog ≡ Some result.now }
    {
        match &self.catalog {
            Some(kept) => kept,
            None => unreachable!(),
        }
    }
}

impl Factset {
    fn row(&self, alloc: Global) -> Result<Row, AllocError>
        requires { IsFactset self.now }
        ensures { IfOk result (λ row. IsRow row entities.Factsets (factset_cells self.now.change)) }
    {
        let hash = self.digits(alloc)?;
        factset_row(alloc, &self.change, &hash)
    }

    // The hash of the facts.
    fn digits(&self, alloc: Global) -> Result<Text, AllocError>
        requires { IsFactset self.now }
        ensures { IfOk result (λ digits. digits ≡ hash (factset_object self.now.change)) }
    {
        match &self.shown.hash {
            Some(hash) => hash.digits(alloc),
            None => factset_hash(alloc, &self.change),
        }
    }

    fn fact_row(&self, alloc: Global, j: usize) -> Result<Row, AllocError>
        requires kept { IsFactset self.now }
        requires within { j < length self.now.change.values }
        ensures { IfOk result (λ row. IsRowAt row entities.Facts (fact_rows (changes.Facts self.now.change)) j) }
    {
        match &self.shown.order {
            Some(order) => fact_at(alloc, &self.change, order, j),
            None => {
                let order = facts_order(alloc, &self.change)?;
                fact_at(alloc, &self.change, &order, j)
            }
        }
    }
}

// Row j of the facts. `order` has their indices sorted by name.
fn fact_at(
    alloc: Global,
    change: &FactsChange,
    order: &PackedOrder,
    j: usize,
) -> Result<Row, AllocError>
    requires order { IsFactOrder order.now change.now }
    requires within { j < length change.now.values }
    ensures { IfOk result (λ row. IsRowAt row entities.Facts (fact_rows (changes.Facts change.now)) j) }
{
    fact_row(alloc, change, order.at(j))
}

impl NodeCatalog {
    fn row(&self, alloc: Global) -> Result<Row, AllocError>
        requires { IsCatalog self.now }
        ensures { IfOk result (λ row. IsRow row entities.Catalogs (catalog_cells self.now.change)) }
    {
        let hash = self.digits(alloc)?;
        catalog_row(alloc, &self.change, &hash)
    }

    // The hash of the catalog.
    fn digits(&self, alloc: Global) -> Result<Text, AllocError>
        requires { IsCatalog self.now }
        ensures { IfOk result (λ digits. digits ≡ hash (catalog_object self.now.change)) }
    {
        match &self.shown.hash {
            Some(hash) => hash.digits(alloc),
            None => self.shown.digest(alloc, &self.change),
        }
    }

    fn resource_row(&self, alloc: Global, j: usize) -> Result<Row, AllocError>
        requires kept { IsCatalog self.now }
        requires within { j < length self.now.change.resources }
        ensures { IfOk result (λ row. IsRowAt row entities.Resources (resource_rows (changes.Catalog self.now.change)) j) }
    {
        match &self.shown.resources {
            Some(shown) => resource_at(alloc, &self.change, shown, j),
            None => {
                let shown = ResourcesShown::of(alloc, self.change.resources.as_slice())?;
                resource_at(alloc, &self.change, &shown, j)
            }
        }
    }

    fn edge_row(&self, alloc: Global, j: usize) -> Result<Row, AllocError>
        requires kept { IsCatalog self.now }
        requires within { j < length self.now.change.edges }
        ensures { IfOk result (λ row. IsRowAt row entities.Edges (edge_rows (changes.Catalog self.now.change)) j) }
    {
        match &self.shown.edge_order {
            Some(order) => edge_at(alloc, &self.change, order, j),
            None => {
                let order = edges_order(alloc, self.change.edges.as_slice())?;
                edge_at(alloc, &self.change, &order, j)
            }
        }
    }
}

// Row j of the resources. `shown` has their order and their hashes.
fn resource_at(
    alloc: Global,
    change: &CatalogChange,
    shown: &ResourcesShown,
    j: usize,
) -> Result<Row, AllocError>
    requires shown { AreResourcesShown shown.now change.now.resources }
    requires within { j < length change.now.resources }
    ensures { IfOk result (λ row. IsRowAt row entities.Resources (resource_rows (changes.Catalog change.now)) j) }
{
    let place = shown.order.at(j);
    let resource = &change.resources.as_slice()[place];
    let hash = shown.hashes.digits(alloc, j)?;
    resource_row(alloc, change, resource, &hash)
}

// Row j of the edges. `order` has their indices in the order of rows.
fn edge_at(
    alloc: Global,
    change: &CatalogChange,
    order: &PackedOrder,
    j: usize,
) -> Result<Row, AllocError>
    requires order { IsEdgeOrder order.now change.now.edges }
    requires within { j < length change.now.edges }
    ensures { IfOk result (λ row. IsRowAt row entities.Edges (edge_rows (changes.Catalog change.now)) j) }
{
    let place = order.at(j);
    let edge = &change.edges.as_slice()[place];
    edge_row(alloc, change, edge)
}

impl HeldReport {
    /// The row of the report. Its lists are unpacked for it.
    #[tactic(auto, using(crate::proofs::PackedLaws::printable_same))]
    pub fn row(&self, alloc: Global) -> Result<Row, AllocError>
        requires { IsReport self.now }
        ensures { IfOk result (λ row. IsRow row entities.Reports (report_cells self.now.received self.now.change)) }
    {
        let kept = self.report();
        let change = kept.change.unpack(alloc)?;
        match &kept.hash {
            Some(hash) => {
                let digits = hash.digits(alloc)?;
                report_row(alloc, kept.received, &change, &digits)
            }
            None => {
                let digits = report_digest(alloc, &change)?;
                report_row(alloc, kept.received, &change, &digits)
            }
        }
    }
}
