//! Decides what one level of a query reads more than once.
use fleet_rows::Entity;
use fleet_rows::json_tree::Text;
use query_plan::{Stage, Step};
use query_reach::{Demand, Pin, demand_on, facts_of, pins_of};
use std::alloc::{AllocError, Global};

/// Who reads what is computed.
#[derive(Clone, Copy)]
pub enum Readers {
    /// One query.
    One,
    /// A query and later ones, which may read the same rows.
    Many,
}

impl Readers {
    pub(crate) fn are_many(self) -> bool {
        match self {
            Readers::One => false,
            Readers::Many => true,
        }
    }
}

/// How often a level would compute the same of an entity's rows, for each node that it reads.
#[derive(Clone, Copy)]
pub(crate) enum Need {
    Never,
    Once,
    Often,
}

// Whether the demand leaves one text at most.
fn is_single(demand: Demand<'_>) -> bool {
    match demand {
        Demand::Nothing => false,
        Demand::Shows(_) => true,
        Demand::Different => true,
    }
}

// Whether no two rows that a level reads need the same of their node.
fn are_apart(entity: Entity, pins: &[Pin<'_>]) -> bool {
    match entity {
        Entity::Facts => is_single(demand_on(pins, "name")),
        Entity::Resources => {
            is_single(demand_on(pins, "type")) && is_single(demand_on(pins, "title"))
        }
        Entity::Edges => false,
        _ => true,
    }
}

// ---- all nodes

// What a level that reads rows of this entity needs of them for all nodes.
fn own_need(entity: Entity, pins: &[Pin<'_>]) -> Need {
    match demand_on(pins, "certname") {
        Demand::Nothing => {
            if are_apart(entity, pins) {
                Need::Once
            } else {
                Need::Often
            }
        }
        _ => Need::Never,
    }
}

// What a level needs of facts for all nodes, if its filter names some.
fn named_need(pins: &[Pin<'_>]) -> Need {
    match demand_on(pins, "certname") {
        Demand::Nothing => Need::Often,
        _ => Need::Never,
    }
}

// The greater need.
fn greater(a: Need, b: Need) -> Need {
    match a {
        Need::Never => b,
        Need::Once => match b {
            Need::Often => Need::Often,
            _ => Need::Once,
        },
        Need::Often => Need::Often,
    }
}

// What a level of the entity `own` needs of an entity for all nodes.
fn need_of(
    alloc: Global,
    entity: Entity,
    own: Entity,
    steps: &[Step<'_>],
) -> Result<Need, AllocError> {
    let named = entity == Entity::Facts && facts_of(alloc, steps)?.len() > 0;
    if !named && own != entity {
        return Ok(Need::Never);
    }
    let pins = pins_of(alloc, steps)?;
    let mut need = Need::Never;
    if own == entity {
        need = own_need(own, pins.as_slice());
    }
    if named {
        need = greater(need, named_need(pins.as_slice()));
    }
    Ok(need)
}

/// What a level needs of an entity for all nodes.
pub(crate) fn level_need(
    alloc: Global,
    entity: Entity,
    stage: &Stage<'_>,
) -> Result<Need, AllocError> {
    match stage.entity {
        None => Ok(Need::Never),
        Some(own) => need_of(alloc, entity, own, stage.steps.as_slice()),
    }
}

// ---- one node

/// What a level needs of a node.
#[derive(Clone, Copy)]
pub(crate) struct OneNode<'q> {
    pub(crate) certname: &'q Text,
    /// Whether it needs the rows of its own entity.
    pub(crate) own: bool,
    /// Whether it needs the facts.
    pub(crate) facts: bool,
}

/// What a level of this entity needs of a node, if it reads the rows of one node alone.
pub(crate) fn node_need<'q>(
    alloc: Global,
    entity: Entity,
    steps: &[Step<'q>],
    readers: Readers,
) -> Result<Option<OneNode<'q>>, AllocError> {
    let pins = pins_of(alloc, steps)?;
    match demand_on(pins.as_slice(), "certname") {
        Demand::Shows(certname) => {
            let facts = facts_of(alloc, steps)?.len() > 0;
            Ok(Some(OneNode {
                certname,
                own: readers.are_many() || !are_apart(entity, pins.as_slice()),
                facts,
            }))
        }
        _ => Ok(None),
    }
}
