//! Serves the links of a live server: lanes answer commands, queries and sweeps at once, while workers apply what was taken.
//!
//! A lane is a thread that takes links from a shared front (`live_front`), answers the requests of each in order, and gives it back
//! ([`serve_lane`], [`serve_live_link`]). What a request asks of the tables and of the queue is one hold of the stage's lock
//! (`live_stage`): a `submit`, a `sweep`, or a `look` that brings the lane's own tables up to date. The rest happens outside it.
//!
//! Beside the routes of `http_routes` there is POST `/pdb/admin/v1/sweep` (`specs/Sweeps.antt`). Each answer with a hold tells a
//! number of events of the live trace, as `X-Fleet-Seen`. A query that names this field asks for tables with at least so many
//! (`specs/Headers.antt`).
//!
//! What the contracts promise:
//! - Each request of a link was given its answer, in order (`IsLiveAnswer` in `specs/Answers.antt`). A query's is that of the
//!   service over the tables of the first n events, where n is the number it tells, whatever other threads do later.
//! - Along a lane these numbers never fall, and the live trace has so many events (`LaneMoves`, `KnowsLane` in `specs/Lanes.antt`).
//! - A request makes at most one call at the stage, and the lane's calls are those of its requests.
//! - Each link was taken once, served and given back (`ServesLane` in `specs/Links.antt`).
//!
//! No contract promises that a link is ever served, or that waiting ends.
#![tactic(auto)]

mod answers;
mod header;
mod lane;
mod laws;
mod link;
mod request;
mod sweeps;

pub use header::Least;
pub use lane::serve_lane;
pub use laws::{each_call_is_caused, numbers_are_printed, requests_move_a_lane};
pub use link::serve_live_link;

// Re-exports for the crates above.
pub use http_routes::LinkEnd;
