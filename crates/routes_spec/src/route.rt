//! The routes of requests.
use fleet_rows::Entity;

/// The route of a request.
#[derive(Clone, Copy, PartialEq, Eq, Debug)]
pub enum Route {
    /// The route to which commands are posted.
    Commands,
    /// The route for whole queries.
    Queries,
    /// The route for the rows of an entity.
    RowsOf(Entity),
}
