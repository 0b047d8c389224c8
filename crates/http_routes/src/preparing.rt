//! Answers queries of an inbox, after preparing what they read.
ghost use Rattle.std.specs.Prelude.{◌≡◌, ◌≢◌, ℕ, List, IfOk};
ghost use Rattle.paging_text.specs.Shown.{written_text};
ghost use Rattle.query_engine.specs.Tables.{world_of};
ghost use Rattle.routes_spec.specs.Reading.{IsReadFor};
ghost use Rattle.http_routes.specs.Asked.{AnswersAsked};
ghost use Rattle.http_routes.specs.Routed.{IsQueryRequest, IsAskedAnswer};

use crate::ask::answer_inquiry;
use crate::inbox::Inbox;
use crate::inquiry::{Inquiry, inquiry_of};
use ast_tree::Query;
use fleet_rows::Entity;
use http_spec::{Answer, Request};
use pattern_port::Patterns;
use query_needs::{Needs, NodeNeed, Readers, needs_of};
use std::alloc::{AllocError, Global};

fn prepare_nodes<I: Inbox + Drop>(inbox: &mut I, nodes: &[NodeNeed<'_>]) -> Result<(), AllocError>
    ensures { inbox.new ≡ inbox.old }
{
    'preparing: for node in nodes {
        inbox.prepare_node(node.entity, node.certname)?;
    }
    Ok(())
}

fn prepare_entities<I: Inbox + Drop>(inbox: &mut I, entities: &[Entity]) -> Result<(), AllocError>
    ensures { inbox.new ≡ inbox.old }
{
    'preparing: for i in 0..entities.len() {
        inbox.prepare(entities[i])?;
    }
    Ok(())
}

fn prepare<I: Inbox + Drop>(inbox: &mut I, needs: &Needs<'_>) -> Result<(), AllocError>
    ensures { inbox.new ≡ inbox.old }
{
    prepare_nodes(inbox, needs.nodes.as_slice())?;
    prepare_entities(inbox, needs.entities.as_slice())
}

fn prepare_query<I: Inbox + Drop>(
    alloc: Global,
    inbox: &mut I,
    query: &Query,
) -> Result<(), AllocError>
    ensures { inbox.new ≡ inbox.old }
{
    let needs = needs_of(alloc, query, Readers::Many)?;
    prepare(inbox, &needs)
}

// Prepares what is asked for. Without memory for that, each row computes what it shows.
fn prepare_inquiry<I: Inbox + Drop>(alloc: Global, inbox: &mut I, inquiry: &Inquiry)
    ensures { inbox.new ≡ inbox.old }
{
    match inquiry {
        Inquiry::Rows(query, _) => {
            let _ = prepare_query(alloc, inbox, query);
        }
        Inquiry::Done(_) => {}
    }
}

/// Answers a query over the inbox's tables, after preparing what it reads.
pub(crate) fn answer_prepared<I: Inbox + Drop, P: Patterns>(
    alloc: Global,
    inbox: &mut I,
    patterns: &mut P,
    request: &Request,
) -> Result<Answer, AllocError>
    requires asked { IsQueryRequest request.now }
    ensures inbox { inbox.new ≡ inbox.old }
    ensures same { (p t : List ℕ) → P.says patterns.new p t ≡ P.says patterns.old p t }
    ensures answer { AnswersAsked (P.asked patterns.old) (P.asked patterns.new) (P.refusals patterns.old) (P.refusals patterns.new)
        (IsReadFor request.now) (IsAskedAnswer (world_of (I.shown inbox.old) (P.says patterns.old)) written_text request.now) result }
    ensures code { IfOk result (λ answer. answer.code ≢ 500) }
{
    let inquiry = inquiry_of(alloc, request)?;
    prepare_inquiry(alloc, inbox, &inquiry);
    answer_inquiry(alloc, inbox.tables(), patterns, request, inquiry)
}
