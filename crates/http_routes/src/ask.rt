//! Answers the questions on the query routes.
ghost use Rattle.std.specs.Prelude.{◌≡◌, ◌≢◌, ℕ, List, IfOk};
ghost use Rattle.routes_spec.specs.fleet_tables.Stands.{Stands};
ghost use Rattle.routes_spec.specs.history_spec.Trace.{Trace};
ghost use Rattle.routes_spec.specs.means_spec.OutRows.{lines_text};
ghost use Rattle.routes_spec.specs.means_spec.World as spec;
ghost use Rattle.paging_params.specs.Params.{last_under};
ghost use Rattle.paging_text.specs.Shown.{rows_of, written_text};
ghost use Rattle.query_engine.specs.Tables.{world_of};
ghost use Rattle.routes_spec.specs.Answers.{IsRowsAnswer};
ghost use Rattle.routes_spec.specs.Reading.{ReadsFront, IsReadFor};
ghost use Rattle.http_routes.specs.Asked.{shown_answer, IsPagedAnswer, IsUnpagedAnswer, IsPickedAnswer, IsUnpickedAnswer, AnswersAsked};
ghost use Rattle.http_routes.specs.Inquiries.{IsInquiryFor};
ghost use Rattle.http_routes.specs.Routed.{IsQueryRequest, IsAskedAnswer};

use crate::answers::{bad_paging, refused};
use crate::inquiry::{Inquiry, inquiry_of};
use ast_tree::Query;
use fleet_tables::Tables;
use http_spec::{Answer, Request};
use paging_params::{PagingFault, Params, read_paging};
use paging_text::{OutRows, page, write_rows};
use pattern_port::Patterns;
use query_engine::{Picked, QueryFault, select_uncounted};
use query_spec::Paging;
use routes_spec::QueryRefusal;
use std::alloc::{AllocError, Global};

// The answer with the rows that a paging leaves.
fn shown(alloc: Global, ends: bool, rows: OutRows, paging: &Paging) -> Result<Answer, AllocError>
    ensures { IfOk result (λ answer. answer ≡ shown_answer ends (rows_of rows) paging.now) }
{
    let page = page(rows, paging)?;
    Ok(Answer {
        code: 200,
        records: if paging.include_total {
            Some(page.total)
        } else {
            None
        },
        seen: None,
        close: ends,
        body: write_rows(alloc, &page.rows)?,
    })
}

// The answer to a bad paging.
fn unpaged(alloc: Global, ends: bool, fault: PagingFault) -> Result<Answer, AllocError>
    ensures { IsUnpagedAnswer ends fault result }
{
    match fault {
        PagingFault::BadPaging(name) => bad_paging(alloc, ends, name.as_str()),
        PagingFault::Memory => Err(AllocError),
    }
}

// The answer with the rows that the parameters ask for.
fn paged(
    alloc: Global,
    ends: bool,
    query: &Query,
    params: &Params,
    rows: OutRows,
) -> Result<Answer, AllocError>
    ensures answer { IfOk result (IsPagedAnswer ends query.now (λ name. last_under name params.now) (rows_of rows)) }
    ensures code { IfOk result (λ answer. answer.code ≢ 500) }
{
    match read_paging(alloc, query, params) {
        Ok(paging) => shown(alloc, ends, rows, &paging),
        Err(fault) => unpaged(alloc, ends, fault),
    }
}

// The answer to a query whose rows couldn't be selected.
fn unpicked(alloc: Global, ends: bool, fault: QueryFault) -> Result<Answer, AllocError>
    ensures answer { IsUnpickedAnswer ends fault result }
    ensures code { IfOk result (λ answer. answer.code ≢ 500) }
{
    match fault {
        QueryFault::BadPattern(path) => refused(alloc, ends, &QueryRefusal::BadPattern(path)),
        QueryFault::SumTooLarge(path) => refused(alloc, ends, &QueryRefusal::SumTooLarge(path)),
        QueryFault::Memory => Err(AllocError),
    }
}

// The answer from the selected rows or from the fault of the selection.
fn picked_answer(
    alloc: Global,
    ends: bool,
    query: &Query,
    params: &Params,
    picked: Result<Picked, QueryFault>,
) -> Result<Answer, AllocError>
    ensures answer { IsPickedAnswer ends query.now (λ name. last_under name params.now) picked result }
    ensures code { IfOk result (λ answer. answer.code ≢ 500) }
{
    match picked {
        Ok(picked) => paged(alloc, ends, query, params, picked.rows),
        Err(fault) => unpicked(alloc, ends, fault),
    }
}

// The answer to a query.
fn rows_answer<P: Patterns>(
    alloc: Global,
    tables: &Tables,
    patterns: &mut P,
    ends: bool,
    query: &Query,
    params: &Params,
) -> Result<Answer, AllocError>
    ensures same { (p t : List ℕ) → P.says patterns.new p t ≡ P.says patterns.old p t }
    ensures answer { AnswersAsked (P.asked patterns.old) (P.asked patterns.new) (P.refusals patterns.old) (P.refusals patterns.new)
        (ReadsFront query.now)
        (IsRowsAnswer (world_of tables.now (P.says patterns.old)) written_text ends query.now (λ name. last_under name params.now)) result }
    ensures code { IfOk result (λ answer. answer.code ≢ 500) }
{
    let picked = select_uncounted(alloc, tables, query, patterns);
    picked_answer(alloc, ends, query, params, picked)
}

/// Answers what a request asks for.
pub(crate) fn answer_inquiry<P: Patterns>(
    alloc: Global,
    tables: &Tables,
    patterns: &mut P,
    request: &Request,
    inquiry: Inquiry,
) -> Result<Answer, AllocError>
    requires asked { IsQueryRequest request.now }
    requires inquiry { IsInquiryFor request.now inquiry }
    ensures same { (p t : List ℕ) → P.says patterns.new p t ≡ P.says patterns.old p t }
    ensures answer { AnswersAsked (P.asked patterns.old) (P.asked patterns.new) (P.refusals patterns.old) (P.refusals patterns.new)
        (IsReadFor request.now) (IsAskedAnswer (world_of tables.now (P.says patterns.old)) written_text request.now) result }
    ensures code { IfOk result (λ answer. answer.code ≢ 500) }
{
    match inquiry {
        Inquiry::Rows(query, params) => {
            rows_answer(alloc, tables, patterns, request.ends, &query, &params)
        }
        Inquiry::Done(answer) => Ok(answer),
    }
}

/// Answers a query over these tables. `route` has said that the request asks one.
pub fn answer_query<P: Patterns>(
    alloc: Global,
    request: &Request,
    tables: &Tables,
    patterns: &mut P,
) -> Result<Answer, AllocError>
    requires asked { IsQueryRequest request.now }

    // What patterns match stays.
    ensures same { (p t : List ℕ) → P.says patterns.new p t ≡ P.says patterns.old p t }

    // The answer is that of the definition, over the tables as they are and over each history that they stand for. Exactly the
    // query's patterns up to a refused one were read, and the count of refusals rose if one was refused.
    ensures answer { AnswersAsked (P.asked patterns.old) (P.asked patterns.new) (P.refusals patterns.old) (P.refusals patterns.new)
        (IsReadFor request.now) (IsAskedAnswer (world_of tables.now (P.says patterns.old)) written_text request.now) result }
    ensures stands { (history : Trace) → Stands tables.now history
        → AnswersAsked (P.asked patterns.old) (P.asked patterns.new) (P.refusals patterns.old) (P.refusals patterns.new)
        (IsReadFor request.now) (IsAskedAnswer (spec.world_of tables.now.ttls history (P.says patterns.old)) lines_text request.now) result }
    ensures code { IfOk result (λ answer. answer.code ≢ 500) }
{
    let inquiry = inquiry_of(alloc, request)?;
    answer_inquiry(alloc, tables, patterns, request, inquiry)
}
