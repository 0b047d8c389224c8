//! Reads a head's text.
ghost use Rattle.std.specs.Prelude.{◌≡◌, ◌≤◌, ℕ, List, length, All, map, IfOk};
ghost use Rattle.httparse.specs.Spans.{IsWithin, IsHeaderWithin, span_bytes, header_bytes};
ghost use Rattle.http_front.specs.Heads.{IsReadHead, pair_head};

use http_spec::json_tree::Bytes;
use http_spec::{Head, Heads, MOST_LINES};
use httparse::Status;
use httparse::spans::{EMPTY_HEADER_SPAN, HeaderSpan, RequestSpans, parse_request};
use std::alloc::{AllocError, Global};

/// The parts of a head.
#[derive(Drop)]
pub(crate) struct Parts {
    pub(crate) method: Bytes,
    pub(crate) target: Bytes,
    pub(crate) headers: Heads,
    pub(crate) minor: u8,
}

/// The result of reading a head's text.
#[derive(Drop)]
pub(crate) enum ReadHead {
    /// A head of the grammar.
    Head(Parts),
    /// The text is no head, or a head with more than 64 fields.
    Bad,
    /// Memory ran out.
    Memory,
}

// The fields that the spans cover.
fn copy_heads(alloc: Global, text: &[u8], spans: &[HeaderSpan]) -> Result<Heads, AllocError>
    requires { All (IsHeaderWithin (length text.now)) spans.now }
    ensures { IfOk result (λ heads. heads ≡ map (λ span. pair_head (header_bytes text.now span)) spans.now) }
{
    let mut heads = Heads::new(alloc);
    for span in spans {
        let name = Bytes::from_slice(alloc, span.name.of(text))?;
        let value = Bytes::from_slice(alloc, span.value.of(text))?;
        heads.push(Head { name, value })?;
    }
    Ok(heads)
}

// The parts that the spans cover.
fn copy_parts(
    alloc: Global,
    text: &[u8],
    head: RequestSpans,
    spans: &[HeaderSpan],
) -> Result<Parts, AllocError>
    requires method { IsWithin (length text.now) head.method }
    requires path { IsWithin (length text.now) head.path }
    requires headers { All (IsHeaderWithin (length text.now)) spans.now }
    ensures method { IfOk result (λ parts. parts.method ≡ span_bytes text.now head.method) }
    ensures target { IfOk result (λ parts. parts.target ≡ span_bytes text.now head.path) }
    ensures headers { IfOk result (λ parts. parts.headers ≡ map (λ span. pair_head (header_bytes text.now span)) spans.now) }
    ensures minor { IfOk result (λ parts. parts.minor ≡ head.version) }
{
    let method = Bytes::from_slice(alloc, head.method.of(text))?;
    let target = Bytes::from_slice(alloc, head.path.of(text))?;
    let headers = copy_heads(alloc, text, spans)?;
    Ok(Parts {
        method,
        target,
        headers,
        minor: head.version,
    })
}

/// The head with which the text begins.
pub(crate) fn read_head(alloc: Global, text: &[u8]) -> ReadHead
    ensures { IsReadHead result text.now }
{
    let mut spans = [EMPTY_HEADER_SPAN; MOST_LINES];
    match parse_request(text, &mut spans) {
        Ok(Status::Complete(head)) => match copy_parts(alloc, text, head, &spans[..head.headers]) {
            Ok(parts) => ReadHead::Head(parts),
            Err(_) => ReadHead::Memory,
        },
        Ok(Status::Partial) => ReadHead::Bad,
        Err(_) => ReadHead::Bad,
    }
}
