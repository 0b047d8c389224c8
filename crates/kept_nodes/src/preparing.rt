//! Computes hashes and orders of a node's rows in advance.
ghost use Rattle.std.specs.Prelude.{◌≡◌, map};
ghost use Rattle.std.specs.List.{AllByRecursion};
ghost use Rattle.kept_nodes.specs.Counted.{counts, numbers};
ghost use Rattle.kept_nodes.specs.Kept.{IsCatalog, IsFactset, IsNode, IsReport};
ghost use Rattle.kept_nodes.specs.Places.{nodes_in, seen_in, InOrder};
ghost use Rattle.kept_nodes.specs.Seen.{catalog_seen, facts_seen, node_seen, report_seen};

use crate::kept::{Factset, HeldReport, NodeCatalog};
use crate::node::Node;
use crate::places::place_of;
use crate::reports::place_of_latest;
use fleet_rows::Entity;
use std::alloc::{AllocError, Global};

/// Computes for each node what its rows of this entity show, as far as it is missing.
pub fn prepare_nodes(
    nodes: &mut Vec<Box<Node>>,
    alloc: Global,
    entity: Entity,
) -> Result<(), AllocError>
    requires { AllByRecursion IsNode (nodes_in nodes.old.items) }
    ensures seen { seen_in nodes.new.items ≡ seen_in nodes.old.items }
    ensures kept { AllByRecursion IsNode (nodes_in nodes.new.items) }
    ensures numbers { numbers (nodes_in nodes.new.items) ≡ numbers (nodes_in nodes.old.items) }
{
    'preparing: for at in 0..nodes.len() {
        nodes[at].prepare(alloc, entity)?;
    }
    Ok(())
}

/// Computes for the node with this certname what its rows of this entity show, as far as it is missing. Other nodes are unchanged.
pub fn prepare_node(
    nodes: &mut Vec<Box<Node>>,
    alloc: Global,
    entity: Entity,
    certname: &str,
) -> Result<(), AllocError>
    requires order { InOrder (nodes_in nodes.old.items) }
    requires kept { AllByRecursion IsNode (nodes_in nodes.old.items) }
    ensures seen { seen_in nodes.new.items ≡ seen_in nodes.old.items }
    ensures kept { AllByRecursion IsNode (nodes_in nodes.new.items) }
    ensures numbers { numbers (nodes_in nodes.new.items) ≡ numbers (nodes_in nodes.old.items) }
{
    match place_of(nodes.as_slice(), certname) {
        Ok(at) => nodes[at].prepare(alloc, entity),
        Err(_) => Ok(()),
    }
}

impl Node {
    fn prepare(&mut self, alloc: Global, entity: Entity) -> Result<(), AllocError>
        requires kept { IsNode self.old }
        ensures seen { node_seen self.new ≡ node_seen self.old }
        ensures kept { IsNode self.new }
        ensures before { self.new.before ≡ self.old.before }
        ensures counts { counts self.new ≡ counts self.old }
    {
        match entity {
            Entity::Factsets | Entity::Facts => self.prepare_facts(alloc, entity),
            Entity::Catalogs | Entity::Resources | Entity::Edges => {
                self.prepare_catalog(alloc, entity)
            }
            Entity::Nodes => self.prepare_latest(alloc),
            Entity::Reports => self.prepare_reports(alloc),
            _ => Ok(()),
        }
    }

    fn prepare_facts(&mut self, alloc: Global, entity: Entity) -> Result<(), AllocError>
        requires kept { IsNode self.old }
        ensures seen { node_seen self.new ≡ node_seen self.old }
        ensures kept { IsNode self.new }
        ensures before { self.new.before ≡ self.old.before }
        ensures counts { counts self.new ≡ counts self.old }
    {
        match &mut self.facts {
            Some(kept) => kept.prepare(alloc, entity),
            None => Ok(()),
        }
    }

    fn prepare_catalog(&mut self, alloc: Global, entity: Entity) -> Result<(), AllocError>
        requires kept { IsNode self.old }
        ensures seen { node_seen self.new ≡ node_seen self.old }
        ensures kept { IsNode self.new }
        ensures before { self.new.before ≡ self.old.before }
        ensures counts { counts self.new ≡ counts self.old }
    {
        match &mut self.catalog {
            Some(kept) => kept.prepare(alloc, entity),
            None => Ok(()),
        }
    }

    // Computes the hash of the latest report, which the node's own row shows.
    fn prepare_latest(&mut self, alloc: Global) -> Result<(), AllocError>
        requires kept { IsNode self.old }
        ensures seen { node_seen self.new ≡ node_seen self.old }
        ensures kept { IsNode self.new }
        ensures before { self.new.before ≡ self.old.before }
        ensures counts { counts self.new ≡ counts self.old }
    {
        prepare_latest(&mut self.reports, alloc)
    }

    // Computes the hashes of the reports.
    fn prepare_reports(&mut self, alloc: Global) -> Result<(), AllocError>
        requires kept { IsNode self.old }
        ensures seen { node_seen self.new ≡ node_seen self.old }
        ensures kept { IsNode self.new }
        ensures before { self.new.before ≡ self.old.before }
        ensures counts { counts self.new ≡ counts self.old }
    {
        prepare_reports(&mut self.reports, alloc)
    }
}

impl Factset {
    fn prepare(&mut self, alloc: Global, entity: Entity) -> Result<(), AllocError>
        requires { IsFactset self.old }
        ensures kept { IsFactset self.new }
        ensures seen { facts_seen self.new ≡ facts_seen self.old }
        ensures change { self.new.change ≡ self.old.change }
    {
        self.shown.prepare(alloc, entity, &self.change)
    }
}

impl NodeCatalog {
    fn prepare(&mut self, alloc: Global, entity: Entity) -> Result<(), AllocError>
        requires { IsCatalog self.old }
        ensures kept { IsCatalog self.new }
        ensures seen { catalog_seen self.new ≡ catalog_seen self.old }
        ensures change { self.new.change ≡ self.old.change }
    {
        self.shown.prepare(alloc, entity, &self.change)
    }
}

fn prepare_reports(reports: &mut Vec<HeldReport>, alloc: Global) -> Result<(), AllocError>
    requires { AllByRecursion IsReport reports.old.items }
    ensures seen { map report_seen reports.new.items ≡ map report_seen reports.old.items }
    ensures kept { AllByRecursion IsReport reports.new.items }
{
    'preparing: for at in 0..reports.len() {
        reports[at].prepare(alloc)?;
    }
    Ok(())
}

fn prepare_latest(reports: &mut Vec<HeldReport>, alloc: Global) -> Result<(), AllocError>
    requires { AllByRecursion IsReport reports.old.items }
    ensures seen { map report_seen reports.new.items ≡ map report_seen reports.old.items }
    ensures kept { AllByRecursion IsReport reports.new.items }
{
    if reports.is_empty() {
        return Ok(());
    }
    let at = place_of_latest(reports.as_slice());
    reports[at].prepare(alloc)
}
