//! Serves the connections of an HTTP listener over a core.
//!
//! [`serve_links`] takes the connections (links) that a listener (front) hands out, one after the other, and answers their
//! requests. Posted commands are submitted to the core, and queries read its tables. It is `link_serving` over an inbox that
//! holds the core.
//!
//! `specs/Submits.antt` says what each posted command does to the core. `specs/Intake.antt` says what they do together: only
//! those that got a receipt are added, in their order. It also says what may be on the disks at each moment.
//!
//! What the contract promises (`ServesCore`, `CameIn`):
//! - Only commands with a receipt are added, in order (`passed`). Within, images stand for the history and a prefix of them,
//!   and perhaps for one being written, which gets a receipt or `queue fault` (`course`). Within one submit, this is the
//!   submitted command (`each`).
//! - The queue's counts rose together by at least one per `queue fault` (`faults`). A core that was up answers `queue down`
//!   only if one of them rose (`down`).
//! - The refusal count rose by at least one for each request with a refused pattern (`refused`). No connection changes the
//!   tables (`tables`).
#![tactic(auto)]

mod inbox;
mod links;

pub use link_serving::ServeEnd;
pub use links::{Served, serve_links};
