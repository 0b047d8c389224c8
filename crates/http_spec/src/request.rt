//! Requests as read, and the faults of bytes that aren't requests.
ghost use Rattle.std.specs.Prelude.{◌≡◌, [], ◌∷◌, ◌++◌, OnOk, OnErr};

use json_tree::Bytes;
use std::alloc::{AllocError, Global};
use std::marker::Model;

/// A header field of a request (RFC 9110, section 5).
#[derive(Drop)]
pub struct Head {
    /// The name as spelled. Names are compared without regard to case.
    pub name: Bytes,
    /// The value, without the spaces and tabs around it.
    pub value: Bytes,
}

/// The fields of a head, in its order. Contracts see the list.
#[derive(Drop)]
pub struct Heads {
    list: Vec<Head>,
}

impl Model for Heads {
    ghost use Rattle.std.specs.Prelude.{List};
    ghost use Rattle.http_spec.specs.declared.request.Head.{Head};

    ghost Value = { List Head };

    ghost use Rattle.std.specs.Coded.{codes};

    ghost coded = { Prim.hlevel codes };

    ghost view = { λ a. a.list.items };
}

impl Heads {
    /// An empty list. It allocates nothing.
    pub fn new(alloc: Global) -> Heads
        ensures { result ≡ [] }
    {
        Heads {
            list: Vec::new(alloc),
        }
    }

    /// Appends a field. If memory runs out, the field is dropped and the list is unchanged.
    pub fn push(&mut self, head: Head) -> Result<(), AllocError>
        ensures ok { OnOk result (self.new ≡ self.old ++ head ∷ []) }
        ensures err { OnErr result (self.new ≡ self.old) }
    {
        self.list.push(head)?;
        Ok(())
    }

    /// The fields in order.
    pub fn as_slice(&self) -> &[Head]
        ensures { result.now ≡ self.now }
    {
        self.list.as_slice()
    }
}

/// An HTTP/1.0 or HTTP/1.1 request (RFC 9112).
#[derive(Drop)]
pub struct Request {
    /// The method, which is case-sensitive.
    pub method: Bytes,
    /// The target as sent: a path, and perhaps `?` and a query.
    pub target: Bytes,
    /// The fields of the head.
    pub headers: Heads,
    /// The body, for any method: as many bytes as `Content-Length` says, at most 16,777,216.
    pub body: Bytes,
    /// Whether the connection closes after the request: it is HTTP/1.0, or a `Connection` field has the option `close`.
    pub ends: bool,
}

/// Why the bytes of a connection aren't a request. The first fault in this order is reported, and each closes the connection.
#[derive(Clone, Copy, Debug, PartialEq, Eq)]
pub enum HttpFault {
    /// 65,536 bytes in which no head ends, or more than 64 lines after the request line.
    HeadTooLarge,
    /// The head doesn't follow the grammar.
    BadHead,
    /// The request has a `Transfer-Encoding`, or it is a POST without `Content-Length`.
    NoLength,
    /// A `Content-Length` has other characters than digits, or two differ.
    BadLength,
    /// The `Content-Length` is above 16,777,216.
    BodyTooLarge,
}
