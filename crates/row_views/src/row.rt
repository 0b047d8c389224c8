//! Refers to rows where the tables keep them, and makes them whole or shows what is seen by reference.
ghost use Rattle.std.specs.Prelude.{◌≡◌, ◌≢◌, ◌+◌, ◌<◌, ℤ, Option, length, slice_get, Some, IfOk};
ghost use Rattle.fleet_tables.specs.fleet_rows.declared.change.Change.TheVariants as changes;
ghost use Rattle.fleet_tables.specs.fleet_rows.declared.row.Entity.TheVariants as entities;
ghost use Rattle.fleet_tables.specs.fleet_rows.declared.settings.Ttls.{Ttls};
ghost use Rattle.fleet_tables.specs.table_machine.Rows.{node_rows, table_rows};
ghost use Rattle.kept_nodes.specs.Counted.{counts, count_of};
ghost use Rattle.kept_nodes.specs.Kept.{IsFactOrder, AreResourcesShown, IsNode, IsReport};
ghost use Rattle.kept_nodes.specs.Seen.{node_seen};
ghost use Rattle.paging_text.specs.means_spec.table_spec.Cells.{hash, report_cells, resource_cells, resource_object};
ghost use Rattle.paging_text.specs.means_spec.table_spec.Rows.{fact_rows, resource_rows};
ghost use Rattle.row_views.specs.Narrow.{referred, narrowed, shown_as};

use crate::narrow::{narrow_cells, referred};
use crate::view::{FactRow, Held, ResourceRow, View, cells_of_fact};
use fleet_tables::fleet_rows::{CatalogChange, Cells, Entity, FactsChange};
use fleet_tables::{Steps, Tables};
use kept_nodes::{HeldReport, Node, ResourcesShown};
use packed_shown::{PackedHashes, PackedOrder};
use row_cells::resource_row;
use std::alloc::{AllocError, Global};
use std::marker::Model;
use std::sync::ledger::Ledger;

/// A row of the tables. Contracts see the list of the whole row's cells.
pub struct KeptRow<'t> {
    kept: Kept<'t>,
}

#[derive(Drop)]
enum Kept<'t> {
    Fact(FactRow<'t>),
    Resource(HashedRow<'t>),
    Report(&'t HeldReport),
    /// A row that was made.
    Made(Cells),
}

// A resource, and the place of its hash.
#[derive(Clone, Copy)]
struct HashedRow<'t> {
    row: ResourceRow<'t>,
    hashes: &'t PackedHashes,
    at: usize,
}

impl<'t> Model for KeptRow<'t> {
    ghost use Rattle.std.specs.Prelude.{List};
    ghost use Rattle.fleet_tables.specs.fleet_rows.Cell.{CellValue};
    ghost use Rattle.row_views.specs.Held.{kept_cells, IsKept};

    ghost Value = { List CellValue };

    ghost use Rattle.std.specs.Coded.{coded_list, coded⊎, coded_ℤ};
    ghost use Rattle.same_text.specs.text_spec.JsonCode.{coded_json};

    ghost coded = { coded_list (coded⊎ coded_ℤ coded_json) };

    ghost view = { λ a. kept_cells a.kept };

    ghost invariant = { λ a. IsKept a.kept };
}

// Written by hand, so that callers who drop a row needn't know how it is stored.
impl<'t> Drop for KeptRow<'t> {
    fn drop(self) {
        let KeptRow { kept } = self;
        drop(kept);
    }
}

// ---- rows that are made

fn made<'t>(cells: Cells) -> KeptRow<'t>
    ensures { result ≡ cells }
{
    KeptRow {
        kept: Kept::Made(cells),
    }
}

pub(crate) fn made_of<'t>(
    alloc: Global,
    node: &Node,
    entity: Entity,
    j: usize,
) -> Result<KeptRow<'t>, AllocError>
    requires kept { IsNode node.now }
    requires other { entity ≢ entities.Nodes }
    requires within { j < count_of entity (counts node.now) }
    ensures { IfOk result (λ row. (ttls : Ttls) (expiry : Option ℤ)
        → slice_get (node_rows entity ttls expiry (node_seen node.now)) j ≡ Some row) }
{
    let row = node.row(alloc, entity, j)?;
    Ok(made(row.cells))
}

pub(crate) fn made_at<'t, L: Ledger>(
    tables: &Tables,
    entity: Entity,
    i: usize,
    steps: &mut Steps<L>,
) -> Result<KeptRow<'t>, AllocError>
    requires { i < length (table_rows entity tables.now) }
    ensures step { steps.new ≡ steps.old + 1 }
    ensures row { IfOk result (λ row. slice_get (table_rows entity tables.now) i ≡ Some row) }
{
    let row = tables.row(entity, i, steps)?;
    Ok(made(row.cells))
}

// ---- facts

// Row j of the facts. `order` has their indices sorted by name.
fn fact_in<'t>(change: &'t FactsChange, order: &PackedOrder, j: usize) -> KeptRow<'t>
    requires order { IsFactOrder order.now change.now }
    requires within { j < length change.now.values }
    ensures { slice_get (fact_rows (changes.Facts change.now)) j ≡ Some result }
{
    let (name, value) = change.values.pair(order.at(j));
    KeptRow {
        kept: Kept::Fact(FactRow {
            certname: &change.certname,
            environment: &change.environment,
            name,
            value,
        }),
    }
}

// Row j of the node's facts. It is made if their order isn't known.
pub(crate) fn fact_of<'t>(
    alloc: Global,
    node: &'t Node,
    j: usize,
) -> Result<KeptRow<'t>, AllocError>
    requires kept { IsNode node.now }
    requires within { j < count_of entities.Facts (counts node.now) }
    ensures { IfOk result (λ row. (ttls : Ttls) (expiry : Option ℤ)
        → slice_get (node_rows entities.Facts ttls expiry (node_seen node.now)) j ≡ Some row) }
{
    match &node.facts {
        Some(kept) => match &kept.shown.order {
            Some(order) => Ok(fact_in(&kept.change, order, j)),
            None => made_of(alloc, node, Entity::Facts, j),
        },
        None => unreachable!(),
    }
}

// ---- resources

// Row j of the resources. `shown` has their order and their hashes.
fn resource_in<'t>(change: &'t CatalogChange, shown: &'t ResourcesShown, j: usize) -> KeptRow<'t>
    requires shown { AreResourcesShown shown.now change.now.resources }
    requires within { j < length change.now.resources }
    ensures { slice_get (resource_rows (changes.Catalog change.now)) j ≡ Some result }
{
    let place = shown.order.at(j);
    let resource = &change.resources.as_slice()[place];
    KeptRow {
        kept: Kept::Resource(HashedRow {
            row: ResourceRow { change, resource },
            hashes: &shown.hashes,
            at: j,
        }),
    }
}

// Row j of the node's resources. It is made if their order isn't known.
pub(crate) fn resource_of<'t>(
    alloc: Global,
    node: &'t Node,
    j: usize,
) -> Result<KeptRow<'t>, AllocError>
    requires kept { IsNode node.now }
    requires within { j < count_of entities.Resources (counts node.now) }
    ensures { IfOk result (λ row. (ttls : Ttls) (expiry : Option ℤ)
        → slice_get (node_rows entities.Resources ttls expiry (node_seen node.now)) j ≡ Some row) }
{
    match &node.catalog {
        Some(kept) => match &kept.shown.resources {
            Some(shown) => Ok(resource_in(&kept.change, shown, j)),
            None => made_of(alloc, node, Entity::Resources, j),
        },
        None => unreachable!(),
    }
}

// The cells of the resource, made.
fn cells_of_resource(alloc: Global, hashed: &HashedRow<'_>) -> Result<Cells, AllocError>
    requires { slice_get hashed.now.hashes.now hashed.now.at ≡ Some (hash (resource_object hashed.now.row.resource.now)) }
    ensures { IfOk result (λ cells. cells ≡ resource_cells hashed.now.row.change.now hashed.now.row.resource.now) }
{
    let digits = hashed.hashes.digits(alloc, hashed.at)?;
    let row = resource_row(alloc, hashed.row.change, hashed.row.resource, &digits)?;
    Ok(row.cells)
}

// ---- reports

// The cells of the report, made.
fn cells_of_report(alloc: Global, report: &HeldReport) -> Result<Cells, AllocError>
    requires { IsReport report.now }
    ensures { IfOk result (λ cells. cells ≡ report_cells report.now.received report.now.change) }
{
    let row = report.row(alloc)?;
    Ok(row.cells)
}

// Report j of the node.
pub(crate) fn report_of<'t>(node: &'t Node, j: usize) -> KeptRow<'t>
    requires kept { IsNode node.now }
    requires within { j < count_of entities.Reports (counts node.now) }
    ensures { (ttls : Ttls) (expiry : Option ℤ)
        → slice_get (node_rows entities.Reports ttls expiry (node_seen node.now)) j ≡ Some result }
{
    let report = &node.reports[j];
    KeptRow {
        kept: Kept::Report(report),
    }
}

// ---- rows of any entity

fn fact_at<'t, L: Ledger>(
    alloc: Global,
    tables: &'t Tables,
    i: usize,
    steps: &mut Steps<L>,
) -> Result<KeptRow<'t>, AllocError>
    requires { i < length (table_rows entities.Facts tables.now) }
    ensures step { steps.new ≡ steps.old + 1 }
    ensures row { IfOk result (λ row. slice_get (table_rows entities.Facts tables.now) i ≡ Some row) }
{
    let (node, j) = tables.node_at(Entity::Facts, i, steps);
    fact_of(alloc, node, j)
}

fn resource_at<'t, L: Ledger>(
    alloc: Global,
    tables: &'t Tables,
    i: usize,
    steps: &mut Steps<L>,
) -> Result<KeptRow<'t>, AllocError>
    requires { i < length (table_rows entities.Resources tables.now) }
    ensures step { steps.new ≡ steps.old + 1 }
    ensures row { IfOk result (λ row. slice_get (table_rows entities.Resources tables.now) i ≡ Some row) }
{
    let (node, j) = tables.node_at(Entity::Resources, i, steps);
    resource_of(alloc, node, j)
}

fn report_at<'t, L: Ledger>(tables: &'t Tables, i: usize, steps: &mut Steps<L>) -> KeptRow<'t>
    requires { i < length (table_rows entities.Reports tables.now) }
    ensures step { steps.new ≡ steps.old + 1 }
    ensures row { slice_get (table_rows entities.Reports tables.now) i ≡ Some result }
{
    let (node, j) = tables.node_at(Entity::Reports, i, steps);
    report_of(node, j)
}

/// Row i of an entity, in the order of its keys. It counts as one step. If it is to be seen narrow, a resource or a report is left
/// where it is; a fact always is. A fact or a resource whose order isn't known is made.
pub fn kept_row<'t, L: Ledger>(
    alloc: Global,
    tables: &'t Tables,
    entity: Entity,
    i: usize,
    narrow: bool,
    steps: &mut Steps<L>,
) -> Result<KeptRow<'t>, AllocError>
    requires { i < length (table_rows entity tables.now) }
    ensures step { steps.new ≡ steps.old + 1 }
    ensures row { IfOk result (λ row. slice_get (table_rows entity tables.now) i ≡ Some row) }
{
    if !narrow && entity != Entity::Facts {
        return made_at(tables, entity, i, steps);
    }
    match entity {
        Entity::Facts => fact_at(alloc, tables, i, steps),
        Entity::Resources => resource_at(alloc, tables, i, steps),
        Entity::Reports => Ok(report_at(tables, i, steps)),
        _ => made_at(tables, entity, i, steps),
    }
}

impl<'t> KeptRow<'t> {
    /// The row as it is seen: whole, or narrow, with null in the columns that aren't seen by reference. A row that is kept is made
    /// only for a whole view, or for a narrow one as a row of another entity.
    pub fn view(&self, alloc: Global, entity: Entity, narrow: bool) -> Result<View<'_>, AllocError>
        ensures { IfOk result (λ view. view ≡ shown_as narrow entity self.now) }
    {
        if narrow {
            self.narrow(alloc, entity)
        } else {
            self.whole(alloc)
        }
    }

    fn whole(&self, alloc: Global) -> Result<View<'_>, AllocError>
        ensures { IfOk result (λ view. view ≡ self.now) }
    {
        match &self.kept {
            Kept::Fact(fact) => Ok(View {
                held: Held::Fact(*fact),
            }),
            Kept::Resource(hashed) => Ok(View {
                held: Held::Made(cells_of_resource(alloc, hashed)?),
            }),
            Kept::Report(report) => Ok(View {
                held: Held::Made(cells_of_report(alloc, report)?),
            }),
            Kept::Made(cells) => Ok(View {
                held: Held::Lent(cells.as_slice()),
            }),
        }
    }

    fn narrow(&self, alloc: Global, entity: Entity) -> Result<View<'_>, AllocError>
        ensures { IfOk result (λ view. view ≡ narrowed (referred entity) self.now) }
    {
        match entity {
            Entity::Resources => match &self.kept {
                Kept::Resource(hashed) => Ok(View {
                    held: Held::Resource(hashed.row),
                }),
                _ => self.cut(alloc, entity),
            },
            Entity::Reports => match &self.kept {
                Kept::Report(report) => Ok(View {
                    held: Held::Report(report),
                }),
                _ => self.cut(alloc, entity),
            },
            _ => self.whole(alloc),
        }
    }

    // The narrow row, made from the whole one.
    fn cut(&self, alloc: Global, entity: Entity) -> Result<View<'_>, AllocError>
        ensures { IfOk result (λ view. view ≡ narrowed (referred entity) self.now) }
    {
        let whole = self.cells(alloc)?;
        let cells = narrow_cells(alloc, referred(entity), whole.as_slice())?;
        Ok(View {
            held: Held::Made(cells),
        })
    }

    // The cells of the row, copied or made.
    fn cells(&self, alloc: Global) -> Result<Cells, AllocError>
        ensures { IfOk result (λ cells. cells ≡ self.now) }
    {
        let whole = self.whole(alloc)?;
        whole.into_cells(alloc)
    }

    /// The cells of the row. A row that was made is moved, and any other is made.
    pub fn into_cells(self, alloc: Global) -> Result<Cells, AllocError>
        ensures { IfOk result (λ cells. cells ≡ self.entry) }
    {
        let KeptRow { kept } = self;
        match kept {
            Kept::Fact(fact) => cells_of_fact(alloc, &fact),
            Kept::Resource(hashed) => cells_of_resource(alloc, &hashed),
            Kept::Report(report) => cells_of_report(alloc, report),
            Kept::Made(cells) => Ok(cells),
        }
    }
}
