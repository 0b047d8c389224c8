//! Tells whether a row's node is active. The tables are asked once for neighbouring rows of a node.
ghost use Rattle.std.specs.Prelude.{◌≡◌, ℕ, List, Bool, IfOk, IfSome};
ghost use Rattle.fleet_tables.specs.Asked.{is_inactive_in};
ghost use Rattle.fleet_tables.specs.table_machine.Table.{Table};
ghost use Rattle.query_plan.specs.means_spec.Means.{is_seen};
ghost use Rattle.query_rows.specs.Scenes.{world};
ghost use Rattle.query_reading.specs.Told.{IsTold};

use fleet_tables::Tables;
use fleet_tables::fleet_rows::Entity;
use query_rows::{Scene, is_seen, text_seen};
use row_views::View;
use same_text::json_tree::Text;
use std::alloc::{AllocError, Global};

/// What the tables told of a node.
#[derive(Drop)]
pub(crate) struct Told {
    pub(crate) certname: Text,
    pub(crate) inactive: bool,
}

fn told_by(told: &Told, certname: &Text) -> Option<bool>
    ensures { (table : Table) → IsTold table told.now → IfSome result (λ inactive. inactive ≡ is_inactive_in table certname.now) }
{
    if told.certname.as_str() == certname.as_str() {
        Some(told.inactive)
    } else {
        None
    }
}

// What was told last, if it was told of this node.
fn told_last(last: &Option<Told>, certname: &Text) -> Option<bool>
    ensures { (table : Table) → IfSome last.now (IsTold table) → IfSome result (λ inactive. inactive ≡ is_inactive_in table certname.now) }
{
    match last {
        Some(told) => told_by(told, certname),
        None => None,
    }
}

// Asks the tables, and notes what they tell.
fn ask(
    alloc: Global,
    tables: &Tables,
    certname: &Text,
    last: &mut Option<Told>,
) -> Result<bool, AllocError>
    requires { IfSome last.old (IsTold tables.now) }
    ensures told { IfSome last.new (IsTold tables.now) }
    ensures value { IfOk result (λ inactive. inactive ≡ is_inactive_in tables.now certname.now) }
{
    let inactive = tables.inactive(certname);
    let certname = Text::from_str(alloc, certname.as_str())?;
    *last = Some(Told { certname, inactive });
    Ok(inactive)
}

// Whether the node is inactive. The tables are asked only if it isn't the last one.
fn is_inactive(
    alloc: Global,
    tables: &Tables,
    certname: &Text,
    last: &mut Option<Told>,
) -> Result<bool, AllocError>
    requires { IfSome last.old (IsTold tables.now) }
    ensures told { IfSome last.new (IsTold tables.now) }
    ensures value { IfOk result (λ inactive. inactive ≡ is_inactive_in tables.now certname.now) }
{
    match told_last(&*last, certname) {
        Some(inactive) => Ok(inactive),
        None => ask(alloc, tables, certname, last),
    }
}

/// Whether the level counts a row of the entity. `last` has what the tables told last.
pub(crate) fn is_seen_once(
    scene: &Scene,
    entity: Option<Entity>,
    state: bool,
    row: &View<'_>,
    last: &mut Option<Told>,
) -> Result<bool, AllocError>
    requires { IfSome last.old (IsTold scene.now.tables.now) }
    ensures told { IfSome last.new (IsTold scene.now.tables.now) }
    ensures value { IfOk result (λ seen. (says : List ℕ → List ℕ → Bool) → seen ≡ is_seen (world scene.now says) entity state row.now) }
{
    if state {
        return Ok(true);
    }
    match text_seen(row.seen(entity, "certname")) {
        Some(certname) => Ok(!is_inactive(scene.alloc, scene.tables, certname, last)?),
        None => is_seen(scene, entity, state, row),
    }
}
