//! Reads the facts of a node that the filter of a level names, one row each.
ghost use Rattle.std.specs.Prelude.{◌≡◌, ◌<◌, ◌≤◌, ◌+◌, ◌++◌, length, Some, IfOk, OnOk};
ghost use Rattle.fleet_tables.specs.fleet_rows.declared.row.Entity.TheVariants as entities;
ghost use Rattle.fleet_tables.specs.table_machine.Rows.{table_rows};
ghost use Rattle.query_plan.specs.means_spec.Cells.{node_in};
ghost use Rattle.query_reach.specs.Seen.{texts_seen};
ghost use Rattle.query_reading.specs.Fetched.{fact_row, fetched, slice_one};

use fleet_tables::fleet_rows::Entity;
use fleet_tables::{Steps, Tables};
use paging_text::Lines;
use pattern_port::Keys;
use query_rows::{FactRows, fact_rows, node_seen};
use row_views::{KeptRow, View};
use same_text::json_tree::Text;
use std::alloc::{AllocError, Global};
use std::sync::ledger::Ledger;

// Appends the row of a fact by its place.
fn push_fact<L: Ledger>(
    tables: &Tables,
    place: usize,
    facts: &mut Lines,
    walk: &mut Steps<L>,
) -> Result<(), AllocError>
    requires { place < length (table_rows entities.Facts tables.now) }
    ensures cost { walk.new ≤ walk.old + 1 }
    ensures value { OnOk result (facts.new ≡ facts.old ++ slice_one (table_rows entities.Facts tables.now) place) }
{
    let row = tables.row(Entity::Facts, place, walk)?;
    facts.push(row.cells)?;
    Ok(())
}

// Appends the row of the node's fact, if there is one.
fn read_fact<L: Ledger>(
    tables: &Tables,
    node: &str,
    name: &Text,
    facts: &mut Lines,
    walk: &mut Steps<L>,
) -> Result<(), AllocError>
    ensures cost { walk.new ≤ walk.old + 1 }
    ensures value { OnOk result (facts.new ≡ facts.old ++ fact_row node.now (table_rows entities.Facts tables.now) name.now) }
{
    match tables.fact_place(node, name) {
        Some(place) => push_fact(tables, place, facts, walk),
        None => Ok(()),
    }
}

// The rows of the node's facts with these names.
fn read_facts<L: Ledger>(
    alloc: Global,
    tables: &Tables,
    node: &str,
    names: &[&Text],
    walk: &mut Steps<L>,
) -> Result<Lines, AllocError>
    ensures cost { walk.new ≤ walk.old + length names.now }
    ensures value { IfOk result (λ facts. facts ≡ fetched node.now (table_rows entities.Facts tables.now) (texts_seen names.now)) }
{
    let mut facts = Lines::new(alloc);
    'reading: for name in names {
        read_fact(tables, node, name, &mut facts, walk)?;
    }
    Ok(facts)
}

// The rows of the facts with these names, of the node of a row that is seen.
fn facts_seen<L: Ledger>(
    alloc: Global,
    keys: Keys,
    tables: &Tables,
    entity: Entity,
    row: &View<'_>,
    names: &[&Text],
    walk: &mut Steps<L>,
) -> Result<FactRows, AllocError>
    ensures cost { walk.new ≤ walk.old + length names.now }
    ensures value { IfOk result (λ facts. facts
        ≡ fetched (node_in (Some entity) row.now) (table_rows entities.Facts tables.now) (texts_seen names.now)) }
{
    let node = node_seen(Some(entity), row);
    let facts = read_facts(alloc, tables, node, names, walk)?;
    fact_rows(alloc, keys, facts)
}

/// The rows of the facts with these names, of the node of a row.
pub(crate) fn facts_for<L: Ledger>(
    alloc: Global,
    keys: Keys,
    tables: &Tables,
    entity: Entity,
    narrow: bool,
    row: &KeptRow<'_>,
    names: &[&Text],
    walk: &mut Steps<L>,
) -> Result<FactRows, AllocError>
    ensures cost { walk.new ≤ walk.old + length names.now }
    ensures value { IfOk result (λ facts. facts
        ≡ fetched (node_in (Some entity) row.now) (table_rows entities.Facts tables.now) (texts_seen names.now)) }
{
    let view = row.view(alloc, entity, narrow)?;
    facts_seen(alloc, keys, tables, entity, &view, names, walk)
}
