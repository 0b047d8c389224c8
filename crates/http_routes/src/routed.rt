//! Tells what a request asks for.
ghost use Rattle.std.specs.Prelude.{◌≡◌, ◌≤◌, length, IfOk};
ghost use Rattle.routes_spec.specs.history_spec.Lawful.{HasStamp};
ghost use Rattle.routes_spec.specs.Answers.{error};
ghost use Rattle.http_routes.specs.Routed.{IsPostRouted, IsRoutedOn, IsRouted};
ghost use Rattle.json_tree.specs.Limits.{most_payload};

use crate::answers::error;
use crate::command::{Posted, posted_with};
use crate::parameters::parameters_in;
use crate::paths::{route_of, takes};
use fleet_rows::Command;
use http_spec::{Answer, Request};
use routes_spec::Route;
use stamp_time::Moment;
use std::alloc::{AllocError, Global};

/// What a request asks for.
#[derive(Drop)]
pub enum Routed {
    /// To submit this command. Its payload is the request's body.
    Command(Command),
    /// To answer a query. This is the request, as it came.
    Query(Request),
    /// Neither. The request has this answer, which depends on no table.
    Done(Answer),
}

// The request has the answer with this status code and this error.
fn refusal(alloc: Global, ends: bool, code: u16, text: &[u8]) -> Result<Routed, AllocError>
    ensures { IfOk result (λ routed. routed ≡ Routed.Done (error ends code text.now)) }
{
    Ok(Routed::Done(error(alloc, ends, code, text)?))
}

// What a request on the command route asks for.
fn posted(alloc: Global, request: Request, now: Moment) -> Result<Routed, AllocError>
    ensures { IfOk result (IsPostRouted now request) }
{
    let list = parameters_in(alloc, &request)?;
    let Request {
        method: _,
        target: _,
        headers: _,
        body,
        ends,
    } = request;
    match posted_with(alloc, now, list.as_slice(), body) {
        Posted::Command(command) => Ok(Routed::Command(command)),
        Posted::Bad(text) => refusal(alloc, ends, 400, text),
        Posted::Memory => Err(AllocError),
    }
}

// What a request asks for on a route that allows its method.
fn routed_on(
    alloc: Global,
    route: Route,
    request: Request,
    now: Moment,
) -> Result<Routed, AllocError>
    ensures { IfOk result (IsRoutedOn now route request) }
{
    match route {
        Route::Commands => posted(alloc, request, now),
        _ => Ok(Routed::Query(request)),
    }
}

/// What a request asks for. A command is received at the moment `now`, and takes the request's body without a copy.
pub fn route(alloc: Global, request: Request, now: Moment) -> Result<Routed, AllocError>
    requires body { length request.body ≤ most_payload }
    requires now { HasStamp now }
    ensures { IfOk result (IsRouted now request) }
{
    match route_of(&request) {
        Some(found) => {
            if takes(found, &request) {
                routed_on(alloc, found, request, now)
            } else {
                refusal(alloc, request.ends, 405, b"bad method")
            }
        }
        None => refusal(alloc, request.ends, 404, b"no such path"),
    }
}
