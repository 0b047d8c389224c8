//! Defines the requests of a connection and the bytes of answers, after RFC 9110 and RFC 9112, with the laws of these
//! definitions.
//!
//! A request is a head and a body of the length in its `Content-Length`. A line of the head ends with LF or CR LF. Empty lines
//! before the request line are skipped. Bytes that don't begin with a request have one first fault, a [`HttpFault`], or are cut.
//! Chunked bodies aren't supported.
//!
//! | file of `specs/` | defines |
//! |---|---|
//! | `HeadText` | which bytes are a head's text: empty lines, the request line, further lines, an empty line |
//! | `HeadEnd` | the same as a reader byte by byte, for clauses on code |
//! | `Limits` | the size limits of heads and connections |
//! | `Framing` | the fields of a name, the length of the body, and whether the connection closes |
//! | `Requests` | what bytes begin with, and the requests of a whole connection |
//! | `Answers` | the bytes of an [`Answer`], and the answers to faults and to lack of memory |
//!
//! The grammar of heads is that of the crate `httparse`. The laws are the contracts of functions that do nothing:
//!
//! - The relation and the reader of heads agree.
//! - Bytes begin with exactly one of a request, a fault and a cut.
//! - Each head of the grammar within the limits is read as itself or refused for its fields.
//! - A request or fault that was found stays the same, whatever bytes follow.
//! - A connection has one reading.
//! - The first field of a name is found in any case of the name.
#![tactic(auto)]

mod answer;
mod fields;
mod laws;
mod limits;
mod request;

pub use answer::Answer;
pub use fields::first_value;
pub use laws::{
    a_head_ends_once, a_head_has_a_line_for_each_field, a_head_is_refused_for_its_fields,
    a_large_head_is_refused, a_link_has_a_reading, a_link_has_one_reading,
    a_request_is_read_as_itself, lengths_are_told_so, links_end_so, numbers_are_printed_so,
    one_thing_stands_at_the_front, something_stands_at_the_front,
    the_first_field_of_a_name_is_found, two_requests_are_read_and_answered_so, what_is_told_stays,
};
pub use limits::{MOST_HEAD, MOST_LINES, MOST_LINK};
pub use request::{Head, Heads, HttpFault, Request};

// The words of lower crates that the modules above use.
pub use json_tree;
