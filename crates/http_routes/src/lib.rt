//! Answers the requests of a connection: hands commands to an [`Inbox`], and answers queries from its tables.
//!
//! [`serve_link`] reads the requests of a connection one after the other and writes the answer to each, after PuppetDB's command
//! API (v1) and query API (v4). It returns a [`LinkEnd`]. `routes_spec` defines the answer to each request, and the contract
//! promises exactly these answers in order. URLs are decoded by `form_urlencoded` (the URL Standard, section 5), and UUIDs are
//! made by `uuid` (RFC 9562).
//!
//! A server with other tables for each query answers a request in parts: [`route`] tells what it asks for ([`Routed`]),
//! [`answer_query`] answers a query, and [`answer_submitted`] a posted command. [`send`] writes an answer, and tells what was
//! written ([`Sent`]); [`end_of`] tells how the connection goes on. [`serve_link`] is these in a loop. `specs/Course` has the course
//! of a connection over any notion of an answer.
//!
//! What the contract of [`serve_link`] promises:
//! - At Closed all answers were written, at WriteFault a prefix of them (`served`, `stands`). A submitted command was received
//!   at `now`. After the answer for missing memory no request is answered.
//! - Every request is answered before more is read: no read is made while a request stands there whole (`so_far`).
//! - The tables stay (`shown`), and so does what patterns match (`same`). Each half counts its fault (`reads`, `writes`). If a
//!   connection doesn't tell its bytes, this holds for some bytes.
//!
//! Costs: a request is freed before the next one is read. There is one buffer of 128 KiB, and a body becomes the payload
//! without a copy. A checksum costs one SHA-1, after all other checks. An answer is built whole and copied once.
#![tactic(auto)]

mod answers;
mod ask;
mod command;
mod inbox;
mod inquiry;
mod link;
mod parameters;
mod paths;
mod preparing;
mod question;
mod routed;
mod sending;
mod told;

pub use answers::{answer_submitted, error};
pub use ask::answer_query;
pub use inbox::Inbox;
pub use link::{LinkEnd, end_behind, end_of, serve_link};
pub use parameters::{last_under, parameters_in};
pub use paths::{is_post, path_of};
pub use routed::{Routed, route};
pub use routes_spec::Submitted;
pub use sending::{Sent, fault_code, fault_text, send, send_memory};
