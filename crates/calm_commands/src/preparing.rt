//! Prepares what a query reads more than once.
ghost use Rattle.std.specs.Prelude.{◌≡◌};

use ast_reader::read_ast;
use ast_tree::Query;
use fleet_rows::Entity;
use fleet_tables::Tables;
use pql_reader::read_pql;
use query_answer::is_ast;
use query_needs::{Needs, NodeNeed, Readers, needs_of};
use std::alloc::{AllocError, Global};

fn prepare_nodes(tables: &mut Tables, nodes: &[NodeNeed<'_>]) -> Result<(), AllocError>
    ensures { tables.new ≡ tables.old }
{
    'preparing: for node in nodes {
        tables.prepare_node(node.entity, node.certname)?;
    }
    Ok(())
}

fn prepare_entities(tables: &mut Tables, entities: &[Entity]) -> Result<(), AllocError>
    ensures { tables.new ≡ tables.old }
{
    'preparing: for i in 0..entities.len() {
        tables.prepare(entities[i])?;
    }
    Ok(())
}

fn prepare(tables: &mut Tables, needs: &Needs<'_>) -> Result<(), AllocError>
    ensures { tables.new ≡ tables.old }
{
    prepare_nodes(tables, needs.nodes.as_slice())?;
    prepare_entities(tables, needs.entities.as_slice())
}

fn prepare_query(alloc: Global, tables: &mut Tables, query: &Query) -> Result<(), AllocError>
    ensures { tables.new ≡ tables.old }
{
    let needs = needs_of(alloc, query, Readers::One)?;
    prepare(tables, &needs)
}

// ---- the text of a query

fn read_query(alloc: Global, text: &[u8]) -> Option<Query> {
    if is_ast(text) {
        match read_ast(alloc, text) {
            Ok(query) => Some(query),
            Err(_) => None,
        }
    } else {
        match read_pql(alloc, text) {
            Ok(query) => Some(query),
            Err(_) => None,
        }
    }
}

/// Computes what the query that the text spells reads more than once. Without memory for that, each row computes what it shows.
/// The tables are unchanged for contracts.
pub(crate) fn prepare_text(alloc: Global, tables: &mut Tables, text: &[u8])
    ensures { tables.new ≡ tables.old }
{
    match read_query(alloc, text) {
        Some(query) => {
            let _ = prepare_query(alloc, tables, &query);
        }
        None => {}
    }
}
