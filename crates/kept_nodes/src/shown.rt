//! Computes what rows of facts and catalogs show besides the fields of their change: hashes, and the orders of facts, resources
//! and edges. Each part is computed at most once where it is stored: with a prepared change, by `prepare`, or for one row. What is
//! stored is packed.
ghost use Rattle.std.specs.Prelude.{◌≡◌, IfOk};
ghost use Rattle.std.specs.List.{AllByRecursion};
ghost use Rattle.packed_shown.specs.Hashes.{IsHash};
ghost use Rattle.checkpoint_spec.specs.stamp_time.Range.{IsPrintable};
ghost use Rattle.checkpoint_spec.specs.fleet_rows.declared.catalog.CatalogChange.{CatalogChange};
ghost use Rattle.checkpoint_spec.specs.fleet_rows.declared.change.FactsChange.{FactsChange};
ghost use Rattle.checkpoint_spec.specs.table_spec.Cells.{hash, catalog_object, factset_object};
ghost use Rattle.kept_nodes.specs.Kept.{IsFactsShown, IsCatalogShown, AreResourcesShown, IsFactOrder, IsEdgeOrder};

use fleet_rows::json_tree::Text;
use fleet_rows::{CatalogChange, Edge, Entity, FactsChange, Resource};
use packed_shown::{PackedHash, PackedHashes, PackedOrder};
use row_cells::{
    catalog_hash, edge_order, fact_order, factset_hash, resource_hashes, resource_order,
};
use std::alloc::{AllocError, Global};

/// What rows of facts show, as far as it is computed.
#[derive(Drop)]
pub struct FactsShown {
    pub hash: Option<PackedHash>,
    /// The indices of the facts, sorted by name.
    pub order: Option<PackedOrder>,
}

/// What rows of a catalog show, as far as it is computed.
#[derive(Drop)]
pub struct CatalogShown {
    pub hash: Option<PackedHash>,
    pub resources: Option<ResourcesShown>,
    /// The indices of the edges, in the order of their rows.
    pub edge_order: Option<PackedOrder>,
}

/// What rows of resources show.
#[derive(Drop)]
pub struct ResourcesShown {
    /// The indices of the resources, sorted by type, then by title.
    pub order: PackedOrder,
    /// Their hashes, in this order.
    pub hashes: PackedHashes,
}

// The hash of the facts.
fn facts_hash(alloc: Global, change: &FactsChange) -> Result<PackedHash, AllocError>
    requires { IsPrintable change.now.stamp }
    ensures { IfOk result (λ packed. packed ≡ hash (factset_object change.now)) }
{
    let digits = factset_hash(alloc, change)?;
    Ok(PackedHash::of(&digits))
}

/// The indices of the facts, sorted by name.
pub(crate) fn facts_order(alloc: Global, change: &FactsChange) -> Result<PackedOrder, AllocError>
    ensures { IfOk result (λ order. IsFactOrder order change.now) }
{
    let order = fact_order(alloc, &change.values)?;
    PackedOrder::of(alloc, order.as_slice())
}

/// The indices of the edges, in the order of their rows.
pub(crate) fn edges_order(alloc: Global, edges: &[Edge]) -> Result<PackedOrder, AllocError>
    ensures { IfOk result (λ order. IsEdgeOrder order edges.now) }
{
    let order = edge_order(alloc, edges)?;
    PackedOrder::of(alloc, order.as_slice())
}

impl FactsShown {
    /// Nothing is computed. It allocates no memory.
    pub(crate) fn none() -> FactsShown
        ensures { (change : FactsChange) → IsFactsShown result change }
    {
        FactsShown {
            hash: None,
            order: None,
        }
    }

    /// Computes everything.
    pub(crate) fn of(alloc: Global, change: &FactsChange) -> Result<FactsShown, AllocError>
        requires { IsPrintable change.now.stamp }
        ensures { IfOk result (λ shown. IsFactsShown shown change.now) }
    {
        let hash = facts_hash(alloc, change)?;
        let order = facts_order(alloc, change)?;
        Ok(FactsShown {
            hash: Some(hash),
            order: Some(order),
        })
    }

    /// Computes what rows of the entity show, unless it is computed already.
    pub(crate) fn prepare(
        &mut self,
        alloc: Global,
        entity: Entity,
        change: &FactsChange,
    ) -> Result<(), AllocError>
        requires moment { IsPrintable change.now.stamp }
        requires shown { IsFactsShown self.old change.now }
        ensures { IsFactsShown self.new change.now }
    {
        match entity {
            Entity::Factsets => self.prepare_hash(alloc, change),
            Entity::Facts => self.prepare_order(alloc, change),
            _ => Ok(()),
        }
    }

    fn prepare_hash(&mut self, alloc: Global, change: &FactsChange) -> Result<(), AllocError>
        requires moment { IsPrintable change.now.stamp }
        requires shown { IsFactsShown self.old change.now }
        ensures { IsFactsShown self.new change.now }
    {
        if self.hash.is_none() {
            self.hash = Some(facts_hash(alloc, change)?);
        }
        Ok(())
    }

    fn prepare_order(&mut self, alloc: Global, change: &FactsChange) -> Result<(), AllocError>
        requires { IsFactsShown self.old change.now }
        ensures { IsFactsShown self.new change.now }
    {
        if self.order.is_none() {
            self.order = Some(facts_order(alloc, change)?);
        }
        Ok(())
    }
}

impl ResourcesShown {
    pub(crate) fn of(alloc: Global, resources: &[Resource]) -> Result<ResourcesShown, AllocError>
        ensures { IfOk result (λ shown. AreResourcesShown shown resources.now) }
    {
        let order = resource_order(alloc, resources)?;
        let hashes = resource_hashes(alloc, resources, order.as_slice())?;
        ResourcesShown::packed(alloc, order.as_slice(), hashes.as_slice())
    }

    fn packed(alloc: Global, order: &[usize], hashes: &[Text]) -> Result<ResourcesShown, AllocError>
        requires { AllByRecursion IsHash hashes.now }
        ensures order { IfOk result (λ shown. shown.order ≡ order.now) }
        ensures hashes { IfOk result (λ shown. shown.hashes ≡ hashes.now) }
    {
        let order = PackedOrder::of(alloc, order)?;
        let hashes = PackedHashes::of(alloc, hashes)?;
        Ok(ResourcesShown { order, hashes })
    }
}

// The hash of a catalog, made from the hashes of its resources and the order of its edges.
fn digest_with(
    alloc: Global,
    change: &CatalogChange,
    resources: &ResourcesShown,
    edges: &PackedOrder,
) -> Result<Text, AllocError>
    requires moment { IsPrintable change.now.stamp }
    requires resources { AreResourcesShown resources.now change.now.resources }
    requires edges { IsEdgeOrder edges.now change.now.edges }
    ensures { IfOk result (λ digest. digest ≡ hash (catalog_object change.now)) }
{
    let hashes = resources.hashes.unpack(alloc)?;
    let places = edges.unpack(alloc)?;
    catalog_hash(alloc, change, hashes.as_slice(), places.as_slice())
}

// The same, packed.
fn hash_with(
    alloc: Global,
    change: &CatalogChange,
    resources: &ResourcesShown,
    edges: &PackedOrder,
) -> Result<PackedHash, AllocError>
    requires moment { IsPrintable change.now.stamp }
    requires resources { AreResourcesShown resources.now change.now.resources }
    requires edges { IsEdgeOrder edges.now change.now.edges }
    ensures { IfOk result (λ packed. packed ≡ hash (catalog_object change.now)) }
{
    let digits = digest_with(alloc, change, resources, edges)?;
    Ok(PackedHash::of(&digits))
}

impl CatalogShown {
    /// Nothing is computed. It allocates no memory.
    pub(crate) fn none() -> CatalogShown
        ensures { (change : CatalogChange) → IsCatalogShown result change }
    {
        CatalogShown {
            hash: None,
            resources: None,
            edge_order: None,
        }
    }

    /// Computes everything.
    pub(crate) fn of(alloc: Global, change: &CatalogChange) -> Result<CatalogShown, AllocError>
        requires { IsPrintable change.now.stamp }
        ensures { IfOk result (λ shown. IsCatalogShown shown change.now) }
    {
        let resources = ResourcesShown::of(alloc, change.resources.as_slice())?;
        let edge_order = edges_order(alloc, change.edges.as_slice())?;
        let hash = hash_with(alloc, change, &resources, &edge_order)?;
        Ok(CatalogShown {
            hash: Some(hash),
            resources: Some(resources),
            edge_order: Some(edge_order),
        })
    }

    /// Computes what rows of the entity show, unless it is computed already.
    pub(crate) fn prepare(
        &mut self,
        alloc: Global,
        entity: Entity,
        change: &CatalogChange,
    ) -> Result<(), AllocError>
        requires moment { IsPrintable change.now.stamp }
        requires shown { IsCatalogShown self.old change.now }
        ensures { IsCatalogShown self.new change.now }
    {
        match entity {
            Entity::Catalogs => self.prepare_hash(alloc, change),
            Entity::Resources => self.prepare_resources(alloc, change),
            Entity::Edges => self.prepare_edges(alloc, change),
            _ => Ok(()),
        }
    }

    fn prepare_hash(&mut self, alloc: Global, change: &CatalogChange) -> Result<(), AllocError>
        requires moment { IsPrintable change.now.stamp }
        requires shown { IsCatalogShown self.old change.now }
        ensures { IsCatalogShown self.new change.now }
    {
        if self.hash.is_none() {
            self.hash = Some(self.hash(alloc, change)?);
        }
        Ok(())
    }

    fn prepare_resources(&mut self, alloc: Global, change: &CatalogChange) -> Result<(), AllocError>
        requires { IsCatalogShown self.old change.now }
        ensures { IsCatalogShown self.new change.now }
    {
        if self.resources.is_none() {
            self.resources = Some(ResourcesShown::of(alloc, change.resources.as_slice())?);
        }
        Ok(())
    }

    fn prepare_edges(&mut self, alloc: Global, change: &CatalogChange) -> Result<(), AllocError>
        requires { IsCatalogShown self.old change.now }
        ensures { IsCatalogShown self.new change.now }
    {
        if self.edge_order.is_none() {
            self.edge_order = Some(edges_order(alloc, change.edges.as_slice())?);
        }
        Ok(())
    }

    /// The hash of the catalog. It uses the hashes and the order that are stored, if both are.
    pub(crate) fn digest(&self, alloc: Global, change: &CatalogChange) -> Result<Text, AllocError>
        requires moment { IsPrintable change.now.stamp }
        requires shown { IsCatalogShown self.now change.now }
        ensures { IfOk result (λ digest. digest ≡ hash (catalog_object change.now)) }
    {
        match (&self.resources, &self.edge_order) {
            (Some(resources), Some(edges)) => digest_with(alloc, change, resources, edges),
            _ => digest_of(alloc, change),
        }
    }

    // The same, packed.
    fn hash(&self, alloc: Global, change: &CatalogChange) -> Result<PackedHash, AllocError>
        requires moment { IsPrintable change.now.stamp }
        requires shown { IsCatalogShown self.now change.now }
        ensures { IfOk result (λ packed. packed ≡ hash (catalog_object change.now)) }
    {
        let digits = self.digest(alloc, change)?;
        Ok(PackedHash::of(&digits))
    }
}

// The hash of a catalog of which nothing is computed yet.
fn digest_of(alloc: Global, change: &CatalogChange) -> Result<Text, AllocError>
    requires { IsPrintable change.now.stamp }
    ensures { IfOk result (λ digest. digest ≡ hash (catalog_object change.now)) }
{
    let resources = ResourcesShown::of(alloc, change.resources.as_slice())?;
    let edges = edges_order(alloc, change.edges.as_slice())?;
    digest_with(alloc, change, &resources, &edges)
}
