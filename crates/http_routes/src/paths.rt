//! Finds the route of a request.
ghost use Rattle.std.specs.Prelude.{◌≡◌, bytes_eq};
ghost use Rattle.routes_spec.specs.Routes.{path_of, query_of, route_at, is_get, is_post, takes_method};

use fleet_rows::Entity;
use http_spec::Request;
use routes_spec::Route;

// The path and the query of a target.
fn split_target(target: &[u8]) -> (&[u8], &[u8])
    ensures path { result.0.now ≡ path_of target.now }
    ensures query { result.1.now ≡ query_of target.now }
{
    match target.iter().position(|&byte| byte == b'?') {
        Some(at) => (&target[..at], &target[at + 1..]),
        None => (target, &[]),
    }
}

/// The path of a target.
pub fn path_of(target: &[u8]) -> &[u8]
    ensures { result.now ≡ path_of target.now }
{
    split_target(target).0
}

/// The query of a target.
pub(crate) fn query_of(target: &[u8]) -> &[u8]
    ensures { result.now ≡ query_of target.now }
{
    split_target(target).1
}

// Whether the bytes are equal.
fn is_equal(bytes: &[u8], other: &[u8]) -> bool
    ensures { result ≡ bytes_eq bytes.now other.now }
{
    bytes == other
}

// The route of a path.
#[tactic(auto, unfolding(routes_spec::specs::Routes::route_at))]
fn route_at(path: &[u8]) -> Option<Route>
    ensures { result ≡ route_at path.now }
{
    if is_equal(path, b"/pdb/cmd/v1") {
        Some(Route::Commands)
    } else if is_equal(path, b"/pdb/query/v4") {
        Some(Route::Queries)
    } else if is_equal(path, b"/pdb/query/v4/nodes") {
        Some(Route::RowsOf(Entity::Nodes))
    } else if is_equal(path, b"/pdb/query/v4/factsets") {
        Some(Route::RowsOf(Entity::Factsets))
    } else if is_equal(path, b"/pdb/query/v4/facts") {
        Some(Route::RowsOf(Entity::Facts))
    } else if is_equal(path, b"/pdb/query/v4/catalogs") {
        Some(Route::RowsOf(Entity::Catalogs))
    } else if is_equal(path, b"/pdb/query/v4/resources") {
        Some(Route::RowsOf(Entity::Resources))
    } else if is_equal(path, b"/pdb/query/v4/edges") {
        Some(Route::RowsOf(Entity::Edges))
    } else if is_equal(path, b"/pdb/query/v4/reports") {
        Some(Route::RowsOf(Entity::Reports))
    } else {
        None
    }
}

fn is_get(method: &[u8]) -> bool
    ensures { result ≡ is_get method.now }
{
    is_equal(method, b"GET")
}

/// Whether the method is POST.
pub fn is_post(method: &[u8]) -> bool
    ensures { result ≡ is_post method.now }
{
    is_equal(method, b"POST")
}

// Whether the route allows the method.
fn takes_method(route: Route, method: &[u8]) -> bool
    ensures { result ≡ takes_method route method.now }
{
    match route {
        Route::Commands => is_post(method),
        Route::Queries | Route::RowsOf(_) => is_get(method) || is_post(method),
    }
}

/// The route of a request.
pub(crate) fn route_of(request: &Request) -> Option<Route>
    ensures { result ≡ route_at (path_of request.now.target) }
{
    let path = path_of(request.target.as_slice());
    route_at(path)
}

/// Whether the route allows the request's method.
pub(crate) fn takes(route: Route, request: &Request) -> bool
    ensures { result ≡ takes_method route request.now.method }
{
    takes_method(route, request.method.as_slice())
}
