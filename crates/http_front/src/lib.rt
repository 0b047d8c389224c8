//! Reads requests from a connection as they arrive, and writes answers as bytes (RFC 9112).
//!
//! [`next_request`] reads a connection (link) up to the end of its next request, and keeps what it read ahead in an [`Incoming`].
//! It answers the request, the fault of the bytes, or that the bytes end. The sizes of the single reads make no difference.
//! [`write_answer`] gives the bytes of an answer, and [`write_memory_answer`] sends the answer for lack of memory.
//!
//! The definitions are those of `http_spec`. Contracts see of an `Incoming` what it read ahead, how many bytes it read from the
//! link, and whether the connection is over. The promises:
//! - Each request is read from exactly its own bytes, with which the unused bytes begin.
//! - A fault is answered only if the unused bytes have it, and the end only if they are cut.
//! - A read fault is answered only if the link's fault counter rose.
//!
//! Bytes past 2^62 aren't read. Memory may run out before a whole request was read.
//!
//! The clauses of [`next_request`]: `request`, `bad`, `ended` and `cause` state these promises. After a closing request, and
//! after every answer but a request, the connection is over (`over`). Then it is neither read nor changed (`stays`). The link
//! is read only while the bytes taken so far end inside a head or body (`asks`, `fault`).
//!
//! Costs: each byte is examined once and moved once or twice. A body goes straight into its own bytes. Fields are copied once
//! and searched four times. [`write_memory_answer`] takes no memory, and sends the whole answer, or a prefix with a counted
//! fault.
#![tactic(auto)]

mod answer;
mod buffer;
mod fields;
mod head;
mod incoming;
mod link;
mod reader;
mod scan;

pub use answer::{write_answer, write_memory_answer};
pub use http_spec::{Answer, Head, Heads, HttpFault, Request};
pub use incoming::{Incoming, NextRequest, next_request};
