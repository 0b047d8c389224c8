//! Finds the places of the rows that a stage may choose.
//!
//! They are those of the rows that show what the stage's pins demand. If the stage is also limited to the nodes that an inner level
//! found, only the rows of these nodes are asked for, node by node. This works where their places rise, as they do in a list of
//! nodes in order; otherwise the limit is left out.
ghost use Rattle.std.specs.Prelude.{◌≡◌, ◌++◌, ◌&&◌, ◌||◌, ◌∷◌, ℕ, Bool, List, [], Some, IfOk, IfSome, OnOk, codes, true, false};
ghost use Rattle.std.specs.List.{list_any};
ghost use Rattle.fleet_tables.specs.fleet_rows.declared.row.Entity.{Entity as EntityValue};
ghost use Rattle.fleet_tables.specs.fleet_rows.declared.row.Entity.TheVariants as entities;
ghost use Rattle.fleet_tables.specs.table_machine.Rows.{table_rows};
ghost use Rattle.fleet_tables.specs.Spans.{places_of};
ghost use Rattle.fleet_tables.specs.Wanted.{is_wanted, texts_of};
ghost use Rattle.query_plan.specs.Made.{steps_of};
ghost use Rattle.query_plan.specs.table_spec.Rows.{Cells as CellsOf};
ghost use Rattle.query_reach.specs.Demands.{IsDemand, IsOnly};
ghost use Rattle.query_reach.specs.Reach.{Pin as PinOf, demanded, is_found, shows_own};
ghost use Rattle.query_reach.specs.Seen.{pins_seen, texts_seen};
ghost use Rattle.query_reading.specs.Joins.{AreReadBy, IsReadBy, below, is_of, stands_behind};
ghost use Rattle.query_reading.specs.Wanted.{IsOwnBy, IsPinsFor, IsWantedBy};

use crate::joins::Nodes;
use fleet_tables::fleet_rows::Entity;
use fleet_tables::{Tables, Wanted, WantedResource};
use query_plan::Step;
use query_reach::{Demand, Pin, Pins, demand_on, pins_of};
use same_text::json_tree::Text;
use std::alloc::{AllocError, Global};

/// Which rows of a level are read.
#[derive(Clone, Copy, PartialEq, Eq, Debug)]
pub enum Reading {
    /// All rows of its entity.
    All,
    /// Those that show what its filter demands.
    InReach,
}

/// The pins by which the rows of a stage with these steps are read.
pub fn pins_for<'q>(
    alloc: Global,
    reading: Reading,
    steps: &[Step<'q>],
) -> Result<Pins<'q>, AllocError>
    ensures { IfOk result (IsPinsFor reading (steps_of steps.now)) }
{
    match reading {
        Reading::All => Ok(Pins::none(alloc)),
        Reading::InReach => pins_of(alloc, steps),
    }
}

// ---- what is asked of the tables

fn own_fact<'q>(name: Demand<'q>) -> Option<Wanted<'q>>
    ensures { (ps : List PinOf) → IsDemand (demanded (codes "name") ps) name.entry → IsOwnBy entities.Facts ps result }
{
    match name {
        Demand::Different => None,
        Demand::Nothing => Some(asked_for(None, None)),
        Demand::Shows(name) => Some(asked_for(Some(name), None)),
    }
}

fn own_resource<'q>(rtype: Demand<'q>, title: Demand<'q>) -> Option<Wanted<'q>>
    ensures { (ps : List PinOf) → IsDemand (demanded (codes "type") ps) rtype.entry → IsDemand (demanded (codes "title") ps) title.entry
        → IsOwnBy entities.Resources ps result }
{
    match rtype {
        Demand::Different => None,
        Demand::Nothing => Some(asked_for(None, None)),
        Demand::Shows(rtype) => own_titled(rtype, title),
    }
}

// Resources of a type.
fn own_titled<'q>(rtype: &'q Text, title: Demand<'q>) -> Option<Wanted<'q>>
    ensures { (ps : List PinOf) → IsOnly rtype.now (demanded (codes "type") ps) → IsDemand (demanded (codes "title") ps) title.entry
        → IsOwnBy entities.Resources ps result }
{
    match title {
        Demand::Different => None,
        Demand::Nothing => Some(asked_for(None, Some(WantedResource { rtype, title: None }))),
        Demand::Shows(title) => {
            let title = Some(title);
            Some(asked_for(None, Some(WantedResource { rtype, title })))
        }
    }
}

fn asked_for<'q>(name: Option<&'q Text>, resource: Option<WantedResource<'q>>) -> Wanted<'q>
    ensures name { result.name ≡ name.entry }
    ensures resource { result.resource ≡ resource.entry }
{
    Wanted {
        certname: None,
        name,
        resource,
    }
}

// What the pins ask for besides the certname. None if no row can show it.
fn own_of<'q>(entity: Entity, pins: &[Pin<'q>]) -> Option<Wanted<'q>>
    ensures { IsOwnBy entity (pins_seen pins.now) result }
{
    match entity {
        Entity::Facts => own_fact(demand_on(pins, "name")),
        Entity::Resources => own_resource(demand_on(pins, "type"), demand_on(pins, "title")),
        _ => Some(asked_for(None, None)),
    }
}

fn with_certname<'q>(certname: Demand<'q>, own: Option<Wanted<'q>>) -> Option<Wanted<'q>>
    ensures { (e : EntityValue) (ps : List PinOf) → IsDemand (demanded (codes "certname") ps) certname.entry → IsOwnBy e ps own.entry → IsWantedBy e ps result }
{
    match own {
        None => None,
        Some(own) => own_with(certname, own),
    }
}

fn own_with<'q>(certname: Demand<'q>, own: Wanted<'q>) -> Option<Wanted<'q>>
    ensures { (e : EntityValue) (ps : List PinOf) → IsDemand (demanded (codes "certname") ps) certname.entry
        → IsOwnBy e ps (Some own.entry) → IsWantedBy e ps result }
{
    match certname {
        Demand::Different => None,
        Demand::Nothing => Some(own_under(None, own)),
        Demand::Shows(text) => Some(own_under(Some(text.as_str()), own)),
    }
}

fn own_under<'q>(certname: Option<&'q str>, own: Wanted<'q>) -> Wanted<'q>
    ensures certname { result.certname ≡ certname.entry }
    ensures name { result.name ≡ own.entry.name }
    ensures resource { result.resource ≡ own.entry.resource }
{
    Wanted {
        certname,
        name: own.name,
        resource: own.resource,
    }
}

// What the pins ask of the tables. None if no row can show it.
fn wanted_of<'q>(entity: Entity, pins: &[Pin<'q>]) -> Option<Wanted<'q>>
    ensures { IsWantedBy entity (pins_seen pins.now) result }
{
    with_certname(demand_on(pins, "certname"), own_of(entity, pins))
}

fn asks_for_nothing(wanted: &Wanted<'_>) -> bool
    ensures { result ≡ true → (e : EntityValue) (row : CellsOf) → is_wanted e (texts_of wanted.now) row ≡ true }
{
    match wanted.certname {
        Some(_) => false,
        None => match wanted.name {
            Some(_) => false,
            None => match wanted.resource {
                Some(_) => false,
                None => true,
            },
        },
    }
}

// Whether all rows are in reach of the pins.
fn demand_nothing(entity: Entity, pins: &[Pin<'_>]) -> bool
    ensures { result ≡ true → (row : CellsOf) → is_found (Some entity) (pins_seen pins.now) row ≡ true }
{
    match wanted_of(entity, pins) {
        None => false,
        Some(wanted) => asks_for_nothing(&wanted),
    }
}

/// Whether rows are read from the first one on, without a list of places: not all rows are needed, the pins demand nothing, and the
/// level isn't limited to nodes.
pub(crate) fn reads_front(
    entity: Entity,
    pins: &Pins<'_>,
    nodes: &Nodes<'_>,
    enough: Option<usize>,
) -> bool
    ensures { result ≡ true → (row : CellsOf) → is_found (Some entity) pins.now row ≡ true }
{
    enough.is_some() && !nodes.joined && demand_nothing(entity, pins.as_slice())
}

// The places of the rows in reach of the pins, in order. No row is read for it.
fn places_in_reach(
    alloc: Global,
    tables: &Tables,
    entity: Entity,
    pins: &[Pin<'_>],
) -> Result<Vec<usize>, AllocError>
    ensures { IfOk result (λ places. places.items ≡ places_of (is_found (Some entity) (pins_seen pins.now)) (table_rows entity tables.now)) }
{
    match wanted_of(entity, pins) {
        Some(wanted) => tables.seek(alloc, entity, &wanted),
        None => Ok(Vec::new(alloc)),
    }
}

// ---- the rows of some nodes

fn stands_behind(places: &[usize], more: &[usize]) -> bool
    ensures { result ≡ stands_behind places.now more.now }
{
    match more {
        [] => true,
        [first, ..] => is_below(places, *first),
    }
}

fn is_below(places: &[usize], bound: usize) -> bool
    ensures { result ≡ below places.now bound }
{
    match places {
        [] => true,
        [.., last] => *last < bound,
    }
}

// Appends the places, if they stand behind those before.
fn push_places(places: &mut Vec<usize>, more: Vec<usize>) -> Result<bool, AllocError>
    ensures { IfOk result (λ behind. behind ≡ true
        → (stands_behind places.old.items more.items ≡ true) × (places.new.items ≡ places.old.items ++ more.items)) }
{
    let mut more = more;
    if !stands_behind(places.as_slice(), more.as_slice()) {
        return Ok(false);
    }
    places.append(&mut more)?;
    Ok(true)
}

// Appends the places of the rows of one more node, which show the rest too.
fn push_node(
    alloc: Global,
    tables: &Tables,
    entity: Entity,
    own: &Wanted<'_>,
    node: &str,
    places: &mut Vec<usize>,
) -> Result<bool, AllocError>
    ensures { IfOk result (λ behind. behind ≡ true → (ps : List PinOf) → IsOwnBy entity ps (Some own.now)
        → (before : CellsOf → Bool) → places.old.items ≡ places_of before (table_rows entity tables.now)
        → places.new.items
        ≡ places_of (λ row. before row || (is_of entity (node.now ∷ []) row && shows_own (Some entity) ps row)) (table_rows entity tables.now)) }
{
    let wanted = own_under(Some(node), *own);
    let more = tables.seek(alloc, entity, &wanted)?;
    push_places(places, more)
}

// The places of the rows of these nodes, which show the rest too. None if they don't rise.
fn places_of_nodes(
    alloc: Global,
    tables: &Tables,
    entity: Entity,
    own: &Wanted<'_>,
    nodes: &[&str],
) -> Result<Option<Vec<usize>>, AllocError>
    ensures { IfOk result (λ found. (ps : List PinOf) → IsOwnBy entity ps (Some own.now)
        → IfSome found (λ places. places.items
        ≡ places_of (λ row. is_of entity (texts_seen nodes.now) row && shows_own (Some entity) ps row) (table_rows entity tables.now))) }
{
    let mut places = Vec::new(alloc);
    'asking: for node in nodes {
        let behind = push_node(alloc, tables, entity, own, node, &mut places)?;
        if !behind {
            return Ok(None);
        }
    }
    Ok(Some(places))
}

// The same for rows in reach of the pins. None too if these demand certnames, or what no row shows.
fn places_by_nodes(
    alloc: Global,
    tables: &Tables,
    entity: Entity,
    pins: &[Pin<'_>],
    nodes: &[&str],
) -> Result<Option<Vec<usize>>, AllocError>
    ensures { IfOk result (λ found. IfSome found (λ places. places.items
        ≡ places_of (λ row. is_of entity (texts_seen nodes.now) row && is_found (Some entity) (pins_seen pins.now) row) (table_rows entity tables.now))) }
{
    match demand_on(pins, "certname") {
        Demand::Nothing => match own_of(entity, pins) {
            Some(own) => places_of_nodes(alloc, tables, entity, &own, nodes),
            None => Ok(None),
        },
        Demand::Shows(_) => Ok(None),
        Demand::Different => Ok(None),
    }
}

// The places of the rows of these nodes that are in reach of the pins, or of all rows in reach.
fn places_joined(
    alloc: Global,
    tables: &Tables,
    entity: Entity,
    pins: &[Pin<'_>],
    nodes: &[&str],
) -> Result<Vec<usize>, AllocError>
    ensures { IfOk result (λ places. IsReadBy entity (pins_seen pins.now) (texts_seen nodes.now) (table_rows entity tables.now) places.items) }
{
    match places_by_nodes(alloc, tables, entity, pins, nodes)? {
        Some(places) => Ok(places),
        None => places_in_reach(alloc, tables, entity, pins),
    }
}

/// The places of the rows that are read: those in reach of the pins, and of these nodes alone if the level is limited to them.
pub(crate) fn places_for(
    alloc: Global,
    tables: &Tables,
    entity: Entity,
    pins: &[Pin<'_>],
    nodes: &Nodes<'_>,
) -> Result<Vec<usize>, AllocError>
    ensures { IfOk result (λ places. AreReadBy nodes.now.joined entity (pins_seen pins.now) (texts_seen nodes.now.list.items)
        (table_rows entity tables.now) places.items) }
{
    if nodes.joined {
        places_joined(alloc, tables, entity, pins, nodes.list.as_slice())
    } else {
        places_in_reach(alloc, tables, entity, pins)
    }
}
