//! Answers, before they are written as bytes.
use json_tree::Bytes;

/// An answer whose body is JSON.
#[derive(Drop)]
pub struct Answer {
    /// The status code.
    pub code: u16,
    /// The number of rows before paging, for `X-Records`.
    pub records: Option<u64>,
    /// How much of the service's history the answer has seen, for `X-Fleet-Seen`.
    pub seen: Option<u64>,
    /// Whether the connection closes after the answer.
    pub close: bool,
    /// The body, without a line end after it.
    pub body: Bytes,
}
