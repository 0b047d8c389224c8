//! Reads the text of a question's query.
ghost use Rattle.std.specs.Prelude.{◌≡◌, IfOk, Some, None};
ghost use Rattle.routes_spec.specs.query_spec.Check.{level_fault};
ghost use Rattle.routes_spec.specs.query_spec.declared.sought.Sought.TheVariants as seek;
ghost use Rattle.routes_spec.specs.query_answer.Told.{told_of};
ghost use Rattle.routes_spec.specs.query_answer.means_laws.Laws.{whole};
ghost use Rattle.routes_spec.specs.Queries.{IsToldOn};
ghost use Rattle.http_routes.specs.Told.{told_ast, told_pql, told_checked, TellsOf, Tells};

use ast_reader::{AstFault, read_ast, read_filter};
use ast_tree::{Clause, Level, Query};
use fleet_rows::Entity;
use json_tree::{Bytes, Text};
use pql_reader::{PqlFault, read_pql};
use query_spec::{Columns, Name, Orders, Paging, Place, entity_name};
use routes_spec::{QueryRefusal, Route, is_ast};
use std::alloc::{AllocError, Global};

/// The result of reading a question's query.
#[derive(Drop)]
pub(crate) enum Told {
    /// The question asks this query.
    Query(Query),
    /// The text spells no query, for this reason.
    Refused(QueryRefusal),
    /// The route needs a text, and there is none.
    Missing,
    /// There was no memory.
    Memory,
}

fn told_in_ast(read: Result<Query, AstFault>) -> Told
    ensures { result ≡ told_ast read }
{
    match read {
        Ok(query) => Told::Query(query),
        Err(AstFault::TooLong) => Told::Refused(QueryRefusal::TooLong),
        Err(AstFault::NotJson { at }) => Told::Refused(QueryRefusal::NotJson { at }),
        Err(AstFault::NotQuery(path)) => Told::Refused(QueryRefusal::NotQuery(path)),
        Err(AstFault::UnknownEntity(path)) => Told::Refused(QueryRefusal::UnknownEntity(path)),
        Err(AstFault::UnknownField(path)) => Told::Refused(QueryRefusal::UnknownField(path)),
        Err(AstFault::BadOperand(path)) => Told::Refused(QueryRefusal::BadOperand(path)),
        Err(AstFault::Memory) => Told::Memory,
    }
}

fn told_in_pql(read: Result<Query, PqlFault>) -> Told
    ensures { result ≡ told_pql read }
{
    match read {
        Ok(query) => Told::Query(query),
        Err(PqlFault::TooLong) => Told::Refused(QueryRefusal::TooLong),
        Err(PqlFault::PqlBad { at }) => Told::Refused(QueryRefusal::PqlBad { at }),
        Err(PqlFault::UnknownEntity(path)) => Told::Refused(QueryRefusal::UnknownEntity(path)),
        Err(PqlFault::UnknownField(path)) => Told::Refused(QueryRefusal::UnknownField(path)),
        Err(PqlFault::BadOperand(path)) => Told::Refused(QueryRefusal::BadOperand(path)),
        Err(PqlFault::Memory) => Told::Memory,
    }
}

// Reads a whole query in its language.
fn told_of(alloc: Global, text: &[u8]) -> Told
    ensures { TellsOf result (told_of text.now) }
{
    if is_ast(text) {
        told_in_ast(read_ast(alloc, text))
    } else {
        told_in_pql(read_pql(alloc, text))
    }
}

// The query for all rows of the entity.
fn all_rows(alloc: Global, entity: Entity) -> Result<Level, AllocError>
    ensures { IfOk result (λ level. level ≡ whole entity) }
{
    Ok(Level::new(
        Name {
            text: Text::from_str(alloc, entity_name(entity))?,
            place: Place::new(alloc),
        },
        None,
        Clause::none(),
        Columns::new(alloc),
        Paging {
            order: Orders::new(alloc),
            offset: None,
            limit: None,
            include_total: false,
        },
    ))
}

// Checks the entities of this query.
fn told_level(level: Level) -> Told
    ensures { result ≡ told_checked (level_fault seek.Entity level) level }
{
    match Query::new(level) {
        Ok(query) => Told::Query(query),
        Err(path) => Told::Refused(QueryRefusal::UnknownEntity(path)),
    }
}

fn told_of_all(alloc: Global, entity: Entity) -> Told
    ensures { Tells result (IsToldOn (Route.RowsOf entity) None) }
{
    match all_rows(alloc, entity) {
        Ok(level) => told_level(level),
        Err(_) => Told::Memory,
    }
}

// Reads the text of a query on this route.
fn told_of_text(alloc: Global, route: Route, text: &[u8]) -> Told
    ensures { Tells result (IsToldOn route (Some text.now)) }
{
    match route {
        Route::Queries => told_of(alloc, text),
        Route::RowsOf(entity) => told_in_ast(read_filter(alloc, entity, text)),
        Route::Commands => Told::Missing,
    }
}

// The result on this route if there is no text.
fn told_of_none(alloc: Global, route: Route) -> Told
    ensures { Tells result (IsToldOn route None) }
{
    match route {
        Route::RowsOf(entity) => told_of_all(alloc, entity),
        Route::Queries => Told::Missing,
        Route::Commands => Told::Missing,
    }
}

/// Reads the query on this route.
pub(crate) fn told_on(alloc: Global, route: Route, query: Option<Bytes>) -> Told
    ensures { Tells result (IsToldOn route query) }
{
    match query {
        Some(text) => told_of_text(alloc, route, text.as_slice()),
        None => told_of_none(alloc, route),
    }
}
