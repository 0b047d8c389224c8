//! Reads what a request on a query route asks for.
ghost use Rattle.std.specs.Prelude.{◌≡◌, IfOk};
ghost use Rattle.http_routes.specs.Inquiries.{IsInquiryOf, IsInquiryOn, IsInquiryFor};
ghost use Rattle.http_routes.specs.Routed.{IsQueryRequest};

use crate::answers::{error, refused};
use crate::paths::route_of;
use crate::question::{Question, question_in};
use crate::told::{Told, told_on};
use ast_tree::Query;
use http_spec::{Answer, Request};
use paging_params::Params;
use routes_spec::Route;
use std::alloc::{AllocError, Global};

/// What a request on a query route asks for.
#[derive(Drop)]
pub(crate) enum Inquiry {
    /// The rows of this query, with the parameters of their paging.
    Rows(Query, Params),
    /// No rows. The request has this answer, which depends on no table.
    Done(Answer),
}

// What a question asks for on this route.
fn inquiry_by(
    alloc: Global,
    route: Route,
    ends: bool,
    question: Question,
) -> Result<Inquiry, AllocError>
    ensures { IfOk result (IsInquiryOf route ends question) }
{
    let Question { query, params } = question;
    match told_on(alloc, route, query) {
        Told::Query(query) => Ok(Inquiry::Rows(query, params)),
        Told::Refused(why) => Ok(Inquiry::Done(refused(alloc, ends, &why)?)),
        Told::Missing => Ok(Inquiry::Done(error(alloc, ends, 400, b"missing query")?)),
        Told::Memory => Err(AllocError),
    }
}

// What a request asks for on this route.
fn inquiry_on(alloc: Global, route: Route, request: &Request) -> Result<Inquiry, AllocError>
    ensures { IfOk result (IsInquiryOn route request.now) }
{
    let ends = request.ends;
    let asked = question_in(alloc, request)?;
    match asked {
        Some(question) => inquiry_by(alloc, route, ends, question),
        None => Ok(Inquiry::Done(error(alloc, ends, 400, b"bad body")?)),
    }
}

/// What a request asks for. `route` has said that it is a query.
pub(crate) fn inquiry_of(alloc: Global, request: &Request) -> Result<Inquiry, AllocError>
    requires { IsQueryRequest request.now }
    ensures { IfOk result (IsInquiryFor request.now) }
{
    match route_of(request) {
        Some(found) => inquiry_on(alloc, found, request),
        // This line is unreachable: a query's path has a route.
        None => Ok(Inquiry::Done(error(alloc, request.ends, 404, b"no such path")?)),
    }
}
