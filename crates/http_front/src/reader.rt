//! Reads the next request of a link through the buffer.
ghost use Rattle.std.specs.Prelude.{◌≡◌, ◌⊎◌, ◌≤◌, ◌<◌, [], length};
ghost use Rattle.std.specs.Io.KnownBytes.{Keeps};
ghost use Rattle.fleet_ports.specs.Counts.{Counts};
ghost use Rattle.http_spec.specs.Requests.{IsCut};
ghost use Rattle.http_front.specs.Bodies.{IsOfParts, IsWithBody};
ghost use Rattle.http_front.specs.Link.{limited};
ghost use Rattle.http_front.specs.Next.{IsNext, StopsIn};
ghost use Rattle.http_spec.specs.Limits.{most_lines, most_link};

use crate::buffer::{Body, Buffer};
use crate::fields::{Framing, body_size, ends_link};
use crate::head::{Parts, ReadHead, read_head};
use crate::incoming::NextRequest;
use crate::scan::Scan;
use fleet_ports::{Source, Took};
use http_spec::json_tree::Bytes;
use http_spec::{HttpFault, MOST_HEAD, MOST_LINES, Request};
use std::alloc::Global;

/// Where the head at the start of the buffer ends.
pub(crate) enum FrontHead {
    /// After `len` bytes, with `lines` lines after the request line.
    Ends { len: usize, lines: usize },
    /// Beyond the size limit of a head.
    TooLarge,
    /// The bytes end within the head.
    Cut,
    /// The read failed, and the link's fault counter rose.
    Failed,
}

/// The reader of a link.
#[derive(Drop)]
pub(crate) struct Reader {
    alloc: Global,
    pub(crate) buffer: Buffer,
    /// The number of bytes read from the link.
    pub(crate) taken: u64,
    ghost within: { taken ≤ most_link },
}

impl Reader {
    ghost use Rattle.http_front.specs.Inside.{buffered, unread, IsReady, IsShort};
    ghost use Rattle.http_front.specs.Fronts.{IsFrontHead, HasHead, AsksForHead};

    /// A reader before the first byte.
    pub(crate) fn new(alloc: Global) -> Reader
        ensures empty { buffered result.buffer ≡ [] }
        ensures none { result.taken ≡ 0 }
    {
        Reader {
            alloc,
            buffer: Buffer::new(alloc),
            taken: 0,
        }
    }

    // Reads up to the end of the head at the start.
    fn find_head<L: Source + Drop>(&mut self, link: &mut L) -> FrontHead
        requires ready { IsReady self.old.buffer }
        ensures keeps { Keeps (unread self.old.buffer self.old.taken (L.left link.old))
            (unread self.new.buffer self.new.taken (L.left link.new)) }
        ensures head { IsFrontHead result (buffered self.new.buffer)
            (unread self.new.buffer self.new.taken (L.left link.new)) }
        ensures asks { AsksForHead (link.new ≡ link.old) (buffered self.old.buffer) (buffered self.new.buffer) }
        ensures ready { IsReady self.new.buffer }
        ensures cause { Counts (L.fault_count link.old) (L.fault_count link.new) (result ≡ FrontHead.Failed) }
    {
        let mut scan = Scan::new();
        'reading: loop {
            match scan.run(self.buffer.as_slice()) {
                Some(lines) => return FrontHead::Ends {
                    len: scan.at,
                    lines,
                },
                None => {}
            }
            if scan.at >= MOST_HEAD {
                return FrontHead::TooLarge;
            }
            match self.buffer.refill(link, &mut self.taken) {
                Took::Bytes(_) => {}
                Took::Ended => return FrontHead::Cut,
                Took::Failed => return FrontHead::Failed,
            }
        }
    }

    // The request whose head's text is the first `len` bytes.
    fn read_request<L: Source + Drop>(
        &mut self,
        link: &mut L,
        len: usize,
        lines: usize,
    ) -> NextRequest
        requires ready { IsReady self.old.buffer }
        requires head { HasHead len lines (buffered self.old.buffer) }
        requires few { lines ≤ most_lines }
        ensures next { IsNext result (unread self.old.buffer self.old.taken (L.left link.old))
            (unread self.new.buffer self.new.taken (L.left link.new)) }
        ensures asks { (link.new ≡ link.old) ⊎ IsCut (buffered self.old.buffer) }
        ensures fault { result ≡ NextRequest.ReadFault
            → StopsIn (unread self.old.buffer self.old.taken (L.left link.old)) (limited self.new.taken (L.left link.new)) }
        ensures cause { Counts (L.fault_count link.old) (L.fault_count link.new) (result ≡ NextRequest.ReadFault) }
    {
        match read_head(self.alloc, &self.buffer.as_slice()[..len]) {
            ReadHead::Head(parts) => match body_size(
                parts.method.as_slice(),
                parts.headers.as_slice(),
            ) {
                Framing::Sized(size) => {
                    self.buffer.advance(len);
                    self.read_body(link, parts, size)
                }
                Framing::Refused(fault) => NextRequest::Bad(fault),
            },
            ReadHead::Bad => NextRequest::Bad(HttpFault::BadHead),
            ReadHead::Memory => NextRequest::Memory,
        }
    }

    // The request with these parts and a body of this size.
    fn read_body<L: Source + Drop>(
        &mut self,
        link: &mut L,
        parts: Parts,
        size: usize,
    ) -> NextRequest
        requires ready { IsReady self.old.buffer }
        ensures body { IsWithBody result parts size (unread self.old.buffer self.old.taken (L.left link.old))
            (unread self.new.buffer self.new.taken (L.left link.new)) }
        ensures asks { (link.new ≡ link.old) ⊎ (length (buffered self.old.buffer) < size) }
        ensures fault { result ≡ NextRequest.ReadFault
            → IsShort size (unread self.old.buffer self.old.taken (L.left link.old)) (limited self.new.taken (L.left link.new)) }
        ensures cause { Counts (L.fault_count link.old) (L.fault_count link.new) (result ≡ NextRequest.ReadFault) }
    {
        match self
            .buffer
            .take_body(self.alloc, link, &mut self.taken, size)
        {
            Body::Whole(body) => NextRequest::Request(with_body(parts, body)),
            Body::Cut => NextRequest::Ended,
            Body::Failed => NextRequest::ReadFault,
            Body::Memory => NextRequest::Memory,
        }
    }

    /// The next request.
    pub(crate) fn next<L: Source + Drop>(&mut self, link: &mut L) -> NextRequest
        ensures next { IsNext result (unread self.old.buffer self.old.taken (L.left link.old))
            (unread self.new.buffer self.new.taken (L.left link.new)) }
        ensures asks { (link.new ≡ link.old) ⊎ IsCut (buffered self.old.buffer) }
        ensures fault { result ≡ NextRequest.ReadFault
            → StopsIn (unread self.old.buffer self.old.taken (L.left link.old)) (limited self.new.taken (L.left link.new)) }
        ensures cause { Counts (L.fault_count link.old) (L.fault_count link.new) (result ≡ NextRequest.ReadFault) }
    {
        match self.buffer.prepare() {
            Ok(()) => {}
            Err(_) => return NextRequest::Memory,
        }
        match self.find_head(link) {
            FrontHead::Ends { len, lines } => if lines > MOST_LINES {
                NextRequest::Bad(HttpFault::HeadTooLarge)
            } else {
                self.read_request(link, len, lines)
            },
            FrontHead::TooLarge => NextRequest::Bad(HttpFault::HeadTooLarge),
            FrontHead::Cut => NextRequest::Ended,
            FrontHead::Failed => NextRequest::ReadFault,
        }
    }
}

// The request with these parts and this body.
fn with_body(parts: Parts, body: Vec<u8>) -> Request
    ensures { IsOfParts result parts body.items }
{
    let Parts {
        method,
        target,
        headers,
        minor,
    } = parts;
    let ends = ends_link(minor, headers.as_slice());
    Request {
        method,
        target,
        headers,
        body: Bytes::from_vec(body),
        ends,
    }
}
