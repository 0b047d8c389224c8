//! Tells how many of the rows that a level chooses suffice for its answer.
ghost use Rattle.std.specs.Prelude.{◌≡◌, ◌∷◌, [], ℕ, ℤ, List, Bool, Option, Some, true, false, length, filter, flat_map};
ghost use Rattle.std.specs.List.{AllByRecursion};
ghost use Rattle.fleet_tables.specs.Groups.{StandInOrder};
ghost use Rattle.fleet_tables.specs.fleet_rows.declared.settings.Ttls.{Ttls};
ghost use Rattle.fleet_tables.specs.kept_nodes.Owned.{IsOwn};
ghost use Rattle.fleet_tables.specs.table_machine.Rows.{node_rows};
ghost use Rattle.fleet_tables.specs.table_machine.Table.{Node};
ghost use Rattle.query_plan.specs.Made.{stage_of};
ghost use Rattle.query_plan.specs.means_spec.Cells.{names_in};
ghost use Rattle.query_plan.specs.means_spec.Paging.{from_offset, orders_cmp, to_limit};
ghost use Rattle.query_plan.specs.means_spec.World.{rows_in};
ghost use Rattle.query_plan.specs.table_spec.Columns.{columns};
ghost use Rattle.query_plan.specs.table_spec.Rows.{Cells as CellsOf};
ghost use Rattle.query_reading.specs.Ordered.{Rises};
ghost use Rattle.query_reading.specs.Stopping.{IsEnough, IsPageEnough, first_of, suffices};
ghost use Rattle.query_rows.specs.Tables.{world_of};

use fleet_tables::Tables;
use fleet_tables::fleet_rows::Entity;
use query_plan::ast_tree::{makes_groups, shown_list};
use query_plan::query_spec::{Order, Paging};
use query_plan::{Shape, Stage};
use row_views::KeptRows;

/// Whether the chosen rows suffice.
pub(crate) fn suffices(chosen: &KeptRows<'_>, enough: Option<usize>) -> bool
    ensures { result ≡ suffices enough (length chosen.now) }
{
    match enough {
        None => false,
        Some(enough) => !(chosen.len() < enough),
    }
}

// ---- the order of the rows of tables

fn rises_by(order: &Order, column: &str) -> bool
    ensures { result ≡ true → (order.now.column.text ≡ column.now) × (order.now.descends ≡ false) }
{
    !order.descends && order.column.text.as_str() == column
}

// Whether the rows of each node stand in this order. Facts stand by name.
fn rise_within(entity: Entity, order: &Order) -> bool
    ensures { result ≡ true
        → (ttls : Ttls) (expiry : Option ℤ) (node : Node) → Rises (orders_cmp (columns entity) (order.now ∷ [])) (node_rows entity ttls expiry node) }
{
    match entity {
        Entity::Facts => rises_by(order, "name"),
        _ => false,
    }
}

// Whether the rows of all nodes stand in these orders. All rows stand by certname.
fn rise(entity: Entity, orders: &[Order]) -> bool
    ensures { result ≡ true → (ttls : Ttls) (expiry : Option ℤ) (nodes : List Node) → StandInOrder nodes → AllByRecursion IsOwn nodes
        → Rises (orders_cmp (columns entity) orders.now) (flat_map (node_rows entity ttls expiry) nodes) }
{
    match orders {
        [] => true,
        [first] => rises_by(first, "certname"),
        [first, second] => rises_by(first, "certname") && rise_within(entity, second),
        [_, _, _, ..] => false,
    }
}

// The same of the tables.
fn stand_in_order(tables: &Tables, entity: Option<Entity>, orders: &[Order]) -> bool
    ensures { result ≡ true → (says : List ℕ → List ℕ → Bool) → Rises (orders_cmp (names_in entity) orders.now) (rows_in (world_of tables.now says) entity) }
{
    match entity {
        None => false,
        Some(entity) => {
            tables.stand_by_certname();
            rise(entity, orders)
        }
    }
}

// ---- pages

// The number of rows up to the last one of the page. None if all may be on the page.
fn rows_to_page_end(paging: &Paging) -> Option<usize>
    ensures { (rows : List CellsOf) → to_limit paging.now.limit (from_offset paging.now.offset (first_of result rows))
        ≡ to_limit paging.now.limit (from_offset paging.now.offset rows) }
{
    match paging.limit {
        None => None,
        Some(limit) => rows_behind(paging.offset, limit),
    }
}

fn rows_behind(offset: Option<u64>, limit: u64) -> Option<usize>
    ensures { (rows : List CellsOf) → to_limit (Some limit) (from_offset offset (first_of result rows)) ≡ to_limit (Some limit) (from_offset offset rows) }
{
    match offset {
        None => Some(limit as usize),
        Some(offset) => match offset.checked_add(limit) {
            None => None,
            Some(end) => Some(end as usize),
        },
    }
}

/// How many of the rows that the stage chooses suffice for its answer. None if it needs all: groups do, and so do rows that the
/// page sorts in another order than that of the tables.
pub fn enough_for(tables: &Tables, stage: &Stage) -> Option<usize>
    ensures { (says : List ℕ → List ℕ → Bool) (test : CellsOf → Bool)
        → IsEnough stage.now.entity (stage_of stage.now).shape result (filter test (rows_in (world_of tables.now says) stage.now.entity)) }
{
    match stage.shape {
        Shape::Whole => None,
        Shape::Answers(shown, group, paging) => {
            if makes_groups(shown_list(shown), group) {
                None
            } else {
                enough_in_order(tables, stage.entity, paging)
            }
        }
    }
}

// How many rows suffice for the page of rows that aren't grouped.
fn enough_in_order(tables: &Tables, entity: Option<Entity>, paging: &Paging) -> Option<usize>
    ensures { (says : List ℕ → List ℕ → Bool) (test : CellsOf → Bool)
        → IsPageEnough (names_in entity) paging.now result (filter test (rows_in (world_of tables.now says) entity)) }
{
    if stand_in_order(tables, entity, paging.order.as_slice()) {
        rows_to_page_end(paging)
    } else {
        None
    }
}
