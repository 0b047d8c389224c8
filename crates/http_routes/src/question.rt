//! Reads the question that a request asks on a query route.
ghost use Rattle.std.specs.Prelude.{◌≡◌, IfOk, OnOk, codes, map};
ghost use Rattle.std.specs.Option.{option_map};
ghost use Rattle.http_spec.specs.text_spec.Json.{find_member, without_member};
ghost use Rattle.json_read.specs.json_tree.Tree.{json_of};
ghost use Rattle.paging_params.specs.Params.{last_under, body};
ghost use Rattle.routes_spec.specs.Queries.{query_text, asked_by_url, asked_by_members, IsQuestionOfBody, IsQuestion};
ghost use Rattle.routes_spec.specs.Parameters.{parameters_of};
ghost use Rattle.routes_spec.specs.Routes.{query_of};
ghost use Rattle.http_routes.specs.Questions.{SamePaging, Asks, IsAskedSo, IsAskedByValue, IsNoneBy, IfAsked, url_pair, with_member};

use crate::parameters::{last_under, parameters_in};
use crate::paths::is_post;
use http_spec::Request;
use json_read::{ReadFault, read};
use json_tree::{Bytes, Json, Members, Text, write_compact};
use paging_params::{Param, Params};
use std::alloc::{AllocError, Global};

/// A question on a query route.
#[derive(Drop)]
pub(crate) struct Question {
    /// The text of the query, if there is one.
    pub(crate) query: Option<Bytes>,
    /// The parameters of the paging.
    pub(crate) params: Params,
}

fn bytes_of(alloc: Global, text: &Text) -> Result<Bytes, AllocError>
    ensures { IfOk result (λ bytes. bytes ≡ text.now) }
{
    Bytes::from_slice(alloc, text.as_str().as_bytes())
}

// The parameters of a URL, as they are.
fn url_params(alloc: Global, list: &[(Text, Text)]) -> Result<Params, AllocError>
    ensures { IfOk result (λ params. params ≡ map url_pair list.now) }
{
    let mut params = Params::new(alloc);
    for pair in list {
        let name = Text::from_str(alloc, pair.0.as_str())?;
        let value = Text::from_str(alloc, pair.1.as_str())?;
        params.push(name, Param::Url(value))?;
    }
    Ok(params)
}

// The text of the query, if there is one.
fn query_under(alloc: Global, list: &[(Text, Text)]) -> Result<Option<Bytes>, AllocError>
    ensures { IfOk result (λ query. query ≡ last_under (codes "query") list.now) }
{
    match last_under(list, "query") {
        Some(text) => Ok(Some(bytes_of(alloc, text)?)),
        None => Ok(None),
    }
}

// The question of a URL's parameters.
fn asked_by_url(alloc: Global, list: &[(Text, Text)]) -> Result<Question, AllocError>
    ensures { IfOk result (λ question. Asks question (asked_by_url list.now)) }
{
    let query = query_under(alloc, list)?;
    let params = url_params(alloc, list)?;
    Ok(Question { query, params })
}

// Moves the member with this name to the parameters, if there is one.
fn move_member(
    alloc: Global,
    members: &mut Members,
    params: &mut Params,
    name: &str,
) -> Result<(), AllocError>
    ensures others { members.new ≡ without_member name.now members.old }
    ensures moved { OnOk result (params.new ≡ with_member name.now (find_member name.now members.old) params.old) }
{
    match members.take(name) {
        Some(json) => {
            let name = Text::from_str(alloc, name)?;
            params.push(name, Param::Body(json))
        }
        None => Ok(()),
    }
}

// The paging parameters among the members of an object.
fn body_params(alloc: Global, mut members: Members) -> Result<Params, AllocError>
    ensures { IfOk result (λ params. SamePaging (λ name. last_under name params) (λ name. option_map body (find_member name members))) }
{
    let mut params = Params::new(alloc);
    move_member(alloc, &mut members, &mut params, "limit")?;
    move_member(alloc, &mut members, &mut params, "offset")?;
    move_member(alloc, &mut members, &mut params, "order_by")?;
    move_member(alloc, &mut members, &mut params, "include_total")?;
    Ok(params)
}

// The text of the query: `Some(None)` if it is missing, None if its value is neither a string nor an array.
fn query_bytes(alloc: Global, query: Option<Json>) -> Result<Option<Option<Bytes>>, AllocError>
    ensures { IfOk result (λ text. text ≡ query_text (option_map json_of query)) }
{
    match query {
        None => Ok(Some(None)),
        Some(Json::Text(text)) => Ok(Some(Some(bytes_of(alloc, &text)?))),
        Some(json) => match &json {
            Json::List(_) => Ok(Some(Some(write_compact(alloc, &json)?))),
            _ => Ok(None),
        },
    }
}

// The question of an object's members, or None if they ask none.
fn asked_by_members(alloc: Global, mut members: Members) -> Result<Option<Question>, AllocError>
    ensures { IfOk result (λ question. IsAskedSo question (asked_by_members members)) }
{
    let query = members.take("query");
    let asked = query_bytes(alloc, query)?;
    match asked {
        Some(query) => {
            let params = body_params(alloc, members)?;
            Ok(Some(Question { query, params }))
        }
        None => Ok(None),
    }
}

// The question of a JSON value, or None if it is no object that asks one.
fn asked_by_value(alloc: Global, json: Json) -> Result<Option<Question>, AllocError>
    ensures { IfOk result (λ question. IsAskedByValue question (json_of json)) }
{
    match json {
        Json::Map(members) => asked_by_members(alloc, members),
        _ => Ok(None),
    }
}

// The question of bytes that couldn't be read: None for bad JSON, an error if memory ran out.
fn asked_by_none(fault: ReadFault) -> Result<Option<Question>, AllocError>
    ensures { IfOk result (λ question. IsNoneBy fault question) }
{
    match fault {
        ReadFault::Memory => Err(AllocError),
        ReadFault::NotJson { .. } => Ok(None),
        ReadFault::TooDeep { .. } => Ok(None),
    }
}

// The question of a body, or None if it is no object that asks one.
fn asked_by_body(alloc: Global, body: &[u8]) -> Result<Option<Question>, AllocError>
    ensures { IfOk result (λ question. IfAsked question (IsQuestionOfBody body.now)) }
{
    match read(alloc, body) {
        Ok(json) => asked_by_value(alloc, json),
        Err(fault) => asked_by_none(fault),
    }
}

// The question of a method, parameters and a body, or None if the body is bad.
fn question_of(
    alloc: Global,
    method: &[u8],
    list: &[(Text, Text)],
    body: &[u8],
) -> Result<Option<Question>, AllocError>
    ensures { IfOk result (λ question. IfAsked question (IsQuestion method.now list.now body.now)) }
{
    if is_post(method) {
        asked_by_body(alloc, body)
    } else {
        let question = asked_by_url(alloc, list)?;
        Ok(Some(question))
    }
}

/// The question of a request, or None if its body is bad.
pub(crate) fn question_in(alloc: Global, request: &Request) -> Result<Option<Question>, AllocError>
    ensures { IfOk result (λ question. IfAsked question (IsQuestion request.now.method (parameters_of (query_of request.now.target)) request.now.body)) }
{
    let list = parameters_in(alloc, request)?;
    let method = request.method.as_slice();
    let body = request.body.as_slice();
    let question = question_of(alloc, method, list.as_slice(), body)?;
    Ok(question)
}
