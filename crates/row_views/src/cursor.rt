//! Reads rows one after the other: the rows of one node cost one search.
ghost use Rattle.std.specs.Prelude.{◌≡◌, ◌≢◌, ◌+◌, ◌-◌, ◌<◌, ◌≤◌, ℕ, ℤ, Option, length, slice_get, Some, IfOk, IfSome};
ghost use Rattle.fleet_tables.specs.fleet_rows.declared.row.Entity.{Entity as Kind};
ghost use Rattle.fleet_tables.specs.fleet_rows.declared.row.Entity.TheVariants as entities;
ghost use Rattle.fleet_tables.specs.fleet_rows.declared.settings.Ttls.{Ttls};
ghost use Rattle.fleet_tables.specs.table_machine.Rows.{node_rows, table_rows};
ghost use Rattle.fleet_tables.specs.table_machine.Table.{Table};
ghost use Rattle.kept_nodes.specs.Counted.{counts, count_of};
ghost use Rattle.kept_nodes.specs.Kept.{IsNode};
ghost use Rattle.kept_nodes.specs.Seen.{node_seen};
ghost use Rattle.row_views.specs.Cursors.{IsPlace, IsSpot};

use crate::row::{KeptRow, fact_of, made_at, made_of, report_of, resource_of};
use fleet_tables::fleet_rows::Entity;
use fleet_tables::{Steps, Tables};
use kept_nodes::Node;
use std::alloc::{AllocError, Global};
use std::marker::Model;
use std::sync::ledger::Ledger;

/// Reads rows of one entity. It knows the node of the row that was sought last, so that the node's further rows are read without a
/// search. Contracts see all rows of the entity.
#[derive(Drop)]
pub struct Cursor<'t> {
    alloc: Global,
    tables: &'t Tables,
    entity: Entity,
    narrow: bool,
    spot: Option<Spot<'t>>,
}

// Row `from` of the tables is row `at` of the node, which has `count` rows.
#[derive(Clone, Copy)]
struct Spot<'t> {
    node: &'t Node,
    from: usize,
    at: usize,
    count: usize,
}

impl<'t> Model for Cursor<'t> {
    ghost use Rattle.std.specs.Prelude.{List, IfSome};
    ghost use Rattle.fleet_tables.specs.fleet_rows.Cell.{CellValue};
    ghost use Rattle.fleet_tables.specs.table_machine.Rows.{table_rows};
    ghost use Rattle.row_views.specs.Cursors.{IsSpot};

    ghost Value = { List (List CellValue) };

    ghost use Rattle.std.specs.Coded.{coded_list, coded⊎, coded_ℤ};
    ghost use Rattle.same_text.specs.text_spec.JsonCode.{coded_json};

    ghost coded = { coded_list (coded_list (coded⊎ coded_ℤ coded_json)) };

    ghost view = { λ a. table_rows a.entity a.tables.now };

    ghost invariant = { λ a. IfSome a.spot (IsSpot a.entity a.tables.now) };
}

// The index of row i among the node's rows, if it is one of those from the spot on.
fn index_in(spot: &Spot<'_>, i: usize) -> Option<usize>
    requires { spot.now.at < spot.now.count }
    ensures from { IfSome result (λ j. spot.now.from ≤ i) }
    ensures index { IfSome result (λ j. j ≡ spot.now.at + (i - spot.now.from)) }
    ensures within { IfSome result (λ j. j < spot.now.count) }
{
    if i < spot.from {
        return None;
    }
    let passed = i - spot.from;
    if passed < spot.count - spot.at {
        Some(spot.at + passed)
    } else {
        None
    }
}

// The node of row i and the row's index there, if the row is one of the node's further rows.
fn known<'t>(spot: &Option<Spot<'t>>, i: usize) -> Option<(&'t Node, usize)>
    requires { IfSome spot.now (λ s. s.at < s.count) }
    ensures { (entity : Kind) (table : Table) → IfSome spot.now (IsSpot entity table)
        → IfSome result (λ place. IsPlace entity table i place.0.now place.1) }
{
    match spot {
        Some(spot) => match index_in(spot, i) {
            Some(j) => Some((spot.node, j)),
            None => None,
        },
        None => None,
    }
}

// Seeks the node of row i, and remembers it.
fn sought<'t, L: Ledger>(
    tables: &'t Tables,
    entity: Entity,
    i: usize,
    spot: &mut Option<Spot<'t>>,
    steps: &mut Steps<L>,
) -> (&'t Node, usize)
    requires { i < length (table_rows entity tables.now) }
    ensures step { steps.new ≡ steps.old + 1 }
    ensures spot { IfSome spot.new (IsSpot entity tables.now) }
    ensures place { IsPlace entity tables.now i result.0.now result.1 }
{
    let (node, at) = tables.node_at(entity, i, steps);
    let count = node.counts().of(entity);
    *spot = Some(Spot {
        node,
        from: i,
        at,
        count,
    });
    (node, at)
}

// The node of row i, and the row's index among the node's rows.
fn node_on<'t, L: Ledger>(
    tables: &'t Tables,
    entity: Entity,
    i: usize,
    spot: &mut Option<Spot<'t>>,
    steps: &mut Steps<L>,
) -> (&'t Node, usize)
    requires row { i < length (table_rows entity tables.now) }
    requires spot { IfSome spot.old (IsSpot entity tables.now) }
    ensures step { steps.new ≡ steps.old + 1 }
    ensures spot { IfSome spot.new (IsSpot entity tables.now) }
    ensures place { IsPlace entity tables.now i result.0.now result.1 }
{
    match known(&*spot, i) {
        Some(place) => {
            steps.tick();
            place
        }
        None => sought(tables, entity, i, spot, steps),
    }
}

// Row j of the node. It is made, unless it is to be seen narrow or is a fact.
fn kept_of<'t>(
    alloc: Global,
    node: &'t Node,
    entity: Entity,
    j: usize,
    narrow: bool,
) -> Result<KeptRow<'t>, AllocError>
    requires kept { IsNode node.now }
    requires other { entity ≢ entities.Nodes }
    requires within { j < count_of entity (counts node.now) }
    ensures { IfOk result (λ row. (ttls : Ttls) (expiry : Option ℤ)
        → slice_get (node_rows entity ttls expiry (node_seen node.now)) j ≡ Some row) }
{
    if !narrow && entity != Entity::Facts {
        return made_of(alloc, node, entity, j);
    }
    match entity {
        Entity::Facts => fact_of(alloc, node, j),
        Entity::Resources => resource_of(alloc, node, j),
        Entity::Reports => Ok(report_of(node, j)),
        _ => made_of(alloc, node, entity, j),
    }
}

fn by_node<'t, L: Ledger>(
    alloc: Global,
    tables: &'t Tables,
    entity: Entity,
    i: usize,
    narrow: bool,
    spot: &mut Option<Spot<'t>>,
    steps: &mut Steps<L>,
) -> Result<KeptRow<'t>, AllocError>
    requires row { i < length (table_rows entity tables.now) }
    requires other { entity ≢ entities.Nodes }
    requires spot { IfSome spot.old (IsSpot entity tables.now) }
    ensures step { steps.new ≡ steps.old + 1 }
    ensures spot { IfSome spot.new (IsSpot entity tables.now) }
    ensures row { IfOk result (λ row. slice_get (table_rows entity tables.now) i ≡ Some row) }
{
    let (node, j) = node_on(tables, entity, i, spot, steps);
    kept_of(alloc, node, entity, j, narrow)
}

fn row_on<'t, L: Ledger>(
    alloc: Global,
    tables: &'t Tables,
    entity: Entity,
    i: usize,
    narrow: bool,
    spot: &mut Option<Spot<'t>>,
    steps: &mut Steps<L>,
) -> Result<KeptRow<'t>, AllocError>
    requires row { i < length (table_rows entity tables.now) }
    requires spot { IfSome spot.old (IsSpot entity tables.now) }
    ensures step { steps.new ≡ steps.old + 1 }
    ensures spot { IfSome spot.new (IsSpot entity tables.now) }
    ensures row { IfOk result (λ row. slice_get (table_rows entity tables.now) i ≡ Some row) }
{
    match entity {
        Entity::Nodes => made_at(tables, entity, i, steps),
        _ => by_node(alloc, tables, entity, i, narrow, spot, steps),
    }
}

impl<'t> Cursor<'t> {
    /// A cursor over the rows of the entity. It takes no memory.
    pub fn new(alloc: Global, tables: &'t Tables, entity: Entity, narrow: bool) -> Cursor<'t>
        ensures { result ≡ table_rows entity tables.now }
    {
        Cursor {
            alloc,
            tables,
            entity,
            narrow,
            spot: None,
        }
    }

    /// Row i, as `kept_row` reads it. It counts as one step.
    pub fn row<L: Ledger>(
        &mut self,
        i: usize,
        steps: &mut Steps<L>,
    ) -> Result<KeptRow<'t>, AllocError>
        requires { i < length self.old }
        ensures step { steps.new ≡ steps.old + 1 }
        ensures same { self.new ≡ self.old }
        ensures row { IfOk result (λ row. slice_get self.old i ≡ Some row) }
    {
        row_on(
            self.alloc,
            self.tables,
            self.entity,
            i,
            self.narrow,
            &mut self.spot,
            steps,
        )
    }
}
