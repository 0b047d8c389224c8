//! Defines the service's answers to requests, after PuppetDB's command API (v1) and query API (v4), with their laws.
//!
//! A request is answered by its path and its method: the command route takes a posted command, and a query route returns rows as
//! JSON. `means_spec` defines the rows of a query, `query_spec` and `pql_spec` how its text is read, and `http_spec` how requests
//! are read from a connection and answers are written.
//!
//! | file of `specs/` | defines |
//! |---|---|
//! | `Routes` | the paths and their methods |
//! | `Parameters` | the names and values of a URL |
//! | `Commands` | what is posted to the command route: a command, or the first error |
//! | `HandedIn` | the requests that submit a command, for the laws |
//! | `Queries` | the question on a query route |
//! | `Answers` | the answer to a request, and the UUID of a receipt |
//! | `Reading` | which patterns may have been read when memory runs out |
//! | `Links` | the answers on a connection, in order: over any notion of an answer, and over this one |
//!
//! The definition is given what a request alone can't tell: the answer of `submit` to its command ([`Submitted`]), and which of
//! its patterns was refused. The laws below are contracts of functions with an empty body:
//!
//! - A request has one answer, and each receipt has its own UUID.
//! - Exactly the posted commands are submitted, unchanged.
//! - Each route has its path, and an entity's route shows the entity's table.
//! - Only the last answer ends a connection.
//! - No answer of the table has the header `X-Fleet-Seen`.
//!
//! An answer ends the connection exactly if its request does, except for the answer that memory ran out.
#![tactic(auto)]

mod laws;
mod route;

pub use fleet_rows::Submitted;
pub use laws::{
    a_command_is_handed_in_as_posted, a_posted_command_is_handed_in, a_request_has_one_answer,
    a_route_has_its_path, a_uuid_tells_its_receipt, an_entity_is_shown_on_its_route,
    answered_requests_are_those_of_the_link, answers_end_links_as_requests_say,
    no_answer_tells_what_was_seen, only_the_last_answer_ends_a_link, posts_are_checked_so,
    requests_are_read_so,
};
pub use route::Route;

// Re-exports for the crates above.
pub use query_answer::{QueryRefusal, is_ast};
