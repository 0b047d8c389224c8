//! Lists what a query reads more than once.
use crate::level::{Need, Readers, level_need, node_need};
use ast_tree::Query;
use fleet_rows::Entity;
use fleet_rows::json_tree::Text;
use query_plan::{Stage, plan_of};
use std::alloc::{AllocError, Global};

// Resources and edges come first, because a catalog's hash is made from theirs.
const PREPARED: [Entity; 6] = [
    Entity::Resources,
    Entity::Edges,
    Entity::Catalogs,
    Entity::Facts,
    Entity::Factsets,
    Entity::Reports,
];

/// A node whose rows of an entity a query needs.
#[derive(Clone, Copy)]
pub struct NodeNeed<'q> {
    pub entity: Entity,
    pub certname: &'q Text,
}

/// What a query needs before its rows are read.
#[derive(Drop)]
pub struct Needs<'q> {
    /// The entities that it needs for all nodes, in the order in which they are to be prepared.
    pub entities: Vec<Entity>,
    /// The nodes that it needs beside these.
    pub nodes: Vec<NodeNeed<'q>>,
}

// ---- nodes

fn push_pinned<'q>(
    alloc: Global,
    entity: Entity,
    stage: &Stage<'q>,
    readers: Readers,
    nodes: &mut Vec<NodeNeed<'q>>,
) -> Result<(), AllocError> {
    match node_need(alloc, entity, stage.steps.as_slice(), readers)? {
        Some(node) => {
            let certname = node.certname;
            if node.own {
                nodes.push(NodeNeed { entity, certname })?;
            }
            if node.facts {
                nodes.push(NodeNeed {
                    entity: Entity::Facts,
                    certname,
                })?;
            }
            Ok(())
        }
        None => Ok(()),
    }
}

fn push_node<'q>(
    alloc: Global,
    stage: &Stage<'q>,
    readers: Readers,
    nodes: &mut Vec<NodeNeed<'q>>,
) -> Result<(), AllocError> {
    match stage.entity {
        None => Ok(()),
        Some(entity) => push_pinned(alloc, entity, stage, readers, nodes),
    }
}

fn nodes_of<'q>(
    alloc: Global,
    stages: &[Stage<'q>],
    readers: Readers,
) -> Result<Vec<NodeNeed<'q>>, AllocError> {
    let mut nodes = Vec::new(alloc);
    for stage in stages {
        push_node(alloc, stage, readers, &mut nodes)?;
    }
    Ok(nodes)
}

// ---- entities

// Whether the levels need the entity for all nodes.
fn is_needed(
    alloc: Global,
    entity: Entity,
    stages: &[Stage<'_>],
    readers: Readers,
) -> Result<bool, AllocError> {
    let mut once = readers.are_many();
    for stage in stages {
        match level_need(alloc, entity, stage)? {
            Need::Never => {}
            Need::Once => {
                if once {
                    return Ok(true);
                }
                once = true;
            }
            Need::Often => return Ok(true),
        }
    }
    Ok(false)
}

fn entities_of(
    alloc: Global,
    stages: &[Stage<'_>],
    readers: Readers,
) -> Result<Vec<Entity>, AllocError> {
    let mut entities = Vec::new(alloc);
    for i in 0..PREPARED.len() {
        if is_needed(alloc, PREPARED[i], stages, readers)? {
            entities.push(PREPARED[i])?;
        }
    }
    if readers.are_many() && is_needed(alloc, Entity::Nodes, stages, readers)? {
        entities.push(Entity::Nodes)?;
    }
    // This entity has no rows to compute. But with each entity the places of all groups are prepared, so that rows are found by halving.
    entities.push(Entity::EventCounts)?;
    Ok(entities)
}

/// What a query needs prepared. Of one reader alone that is what it reads more than once of the rows of a node.
pub fn needs_of(alloc: Global, query: &Query, readers: Readers) -> Result<Needs<'_>, AllocError> {
    let plan = plan_of(alloc, query.level())?;
    let stages = plan.stages.as_slice();
    Ok(Needs {
        entities: entities_of(alloc, stages, readers)?,
        nodes: nodes_of(alloc, stages, readers)?,
    })
}
