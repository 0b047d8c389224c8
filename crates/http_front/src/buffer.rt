//! Buffers the bytes that were read from a link but belong to no request yet.
//!
//! The bytes are in one buffer, from `start` to `end`. The link is read only if they don't suffice, in reads of at least 64 KiB.
//! The buffer has that much room after the longest head. If a body still misses that much, it is read straight into the body.
//! Bytes move to the start of the buffer only before a read, and at most once per request, since `start` stays until a request is
//! given.
ghost use Rattle.std.specs.Prelude.{◌≡◌, ◌⊎◌, ◌+◌, ◌≤◌, ◌<◌, [], ◌++◌, length, take, drop, min, vec_len, OnOk};
ghost use Rattle.std.specs.Io.KnownBytes.{Keeps, IsAtEnd};
ghost use Rattle.fleet_ports.specs.Counts.{Counts};
ghost use Rattle.fleet_ports.specs.Streams.{Takes};
ghost use Rattle.http_front.specs.Link.{limited};
ghost use Rattle.http_spec.specs.Limits.{most_link};

use crate::link::read_link;
use fleet_ports::{Source, Took};
use http_spec::MOST_HEAD;
use std::alloc::{AllocError, Global};

/// The least number of bytes that a read asks for.
const PIECE: usize = 65_536;

/// The size of the buffer: one piece after the longest head.
const ROOM: usize = PIECE + MOST_HEAD;

/// The bytes that were read but not consumed.
#[derive(Drop)]
pub(crate) struct Buffer {
    bytes: Vec<u8>,
    start: usize,
    end: usize,
    ghost order: { start ≤ end },
    ghost inside: { end ≤ vec_len bytes },
}

/// The result of reading a body.
#[derive(Drop)]
pub(crate) enum Body {
    /// All of it.
    Whole(Vec<u8>),
    /// The bytes end within the body.
    Cut,
    /// The read failed, and the link's fault counter rose.
    Failed,
    /// Memory ran out.
    Memory,
}

impl Buffer {
    ghost use Rattle.http_front.specs.Inside.{buffered, unread, IsReady, Grows, Gave, IsBody, IsShort};

    /// An empty buffer without memory.
    pub(crate) fn new(alloc: Global) -> Buffer
        ensures { buffered result ≡ [] }
    {
        Buffer {
            bytes: Vec::new(alloc),
            start: 0,
            end: 0,
        }
    }

    /// Allocates the buffer, at the first call.
    pub(crate) fn prepare(&mut self) -> Result<(), AllocError>
        ensures ready { OnOk result (IsReady self.new) }
        ensures same { buffered self.new ≡ buffered self.old }
    {
        if self.bytes.len() < ROOM {
            self.bytes.resize(ROOM, 0)?;
        }
        Ok(())
    }

    /// The buffered bytes.
    pub(crate) fn as_slice(&self) -> &[u8]
        ensures { result.now ≡ buffered self.now }
    {
        &self.bytes[self.start..self.end]
    }

    fn len(&self) -> usize
        ensures { result ≡ length (buffered self.now) }
    {
        self.end - self.start
    }

    /// Drops the first `count` bytes.
    pub(crate) fn advance(&mut self, count: usize)
        requires { count ≤ length (buffered self.old) }
        ensures rest { buffered self.new ≡ drop count (buffered self.old) }
        ensures room { vec_len self.new.bytes ≡ vec_len self.old.bytes }
    {
        self.start += count;
    }

    // Moves the bytes to the start of the buffer.
    fn move_to_front(&mut self)
        ensures same { buffered self.new ≡ buffered self.old }
        ensures front { self.new.start ≡ 0 }
        ensures room { vec_len self.new.bytes ≡ vec_len self.old.bytes }
    {
        if self.start > 0 {
            self.bytes.copy_within(self.start..self.end, 0);
            self.end -= self.start;
            self.start = 0;
        }
    }

    /// Reads more bytes from a link and appends them.
    pub(crate) fn refill<L: Source + Drop>(&mut self, link: &mut L, taken: &mut u64) -> Took
        requires ready { IsReady self.old }
        requires within { taken.old ≤ most_link }
        requires few { length (buffered self.old) < MOST_HEAD }
        ensures keeps { Keeps (unread self.old taken.old (L.left link.old))
            (unread self.new taken.new (L.left link.new)) }
        ensures grows { Grows result (buffered self.old) (buffered self.new) }
        ensures end { result ≡ Took.Ended → IsAtEnd (limited taken.new (L.left link.new)) }
        ensures within { taken.new ≤ most_link }
        ensures room { vec_len self.new.bytes ≡ vec_len self.old.bytes }
        ensures cause { Counts (L.fault_count link.old) (L.fault_count link.new) (result ≡ Took.Failed) }
    {
        self.move_to_front();
        match read_link(link, taken, &mut self.bytes[self.end..]) {
            Took::Bytes(count) => {
                self.end += count;
                Took::Bytes(count)
            }
            Took::Ended => Took::Ended,
            Took::Failed => Took::Failed,
        }
    }

    // Moves as many bytes as possible to the start of a slice.
    fn give(&mut self, into: &mut [u8]) -> usize
        ensures count { result ≡ min (length (buffered self.old)) (length into.old) }
        ensures moved { buffered self.old ≡ take result into.new ++ buffered self.new }
        ensures room { vec_len self.new.bytes ≡ vec_len self.old.bytes }
    {
        let count = self.len().min(into.len());
        into[..count].copy_from_slice(&self.as_slice()[..count]);
        self.advance(count);
        count
    }

    // Moves the next bytes to the start of a slice. It reads the link only if the buffer is empty.
    fn fill<L: Source + Drop>(&mut self, link: &mut L, taken: &mut u64, into: &mut [u8]) -> Took
        requires ready { IsReady self.old }
        requires within { taken.old ≤ most_link }
        requires some { 0 < length into.old }
        ensures bytes { Takes result into.new (unread self.old taken.old (L.left link.old))
            (unread self.new taken.new (L.left link.new)) }
        ensures asks { 0 < length (buffered self.old)
            → (link.new ≡ link.old) × Gave result (length (buffered self.old)) (length (buffered self.new)) }
        ensures none { result ≡ Took.Failed → length (buffered self.new) ≡ 0 }
        ensures within { taken.new ≤ most_link }
        ensures room { vec_len self.new.bytes ≡ vec_len self.old.bytes }
        ensures cause { Counts (L.fault_count link.old) (L.fault_count link.new) (result ≡ Took.Failed) }
    {
        if self.len() > 0 {
            return Took::Bytes(self.give(into));
        }
        if into.len() >= PIECE {
            return read_link(link, taken, into);
        }
        match self.refill(link, taken) {
            Took::Bytes(_) => Took::Bytes(self.give(into)),
            Took::Ended => Took::Ended,
            Took::Failed => Took::Failed,
        }
    }

    /// Takes a body of this size.
    pub(crate) fn take_body<L: Source + Drop>(
        &mut self,
        alloc: Global,
        link: &mut L,
        taken: &mut u64,
        size: usize,
    ) -> Body
        requires ready { IsReady self.old }
        requires within { taken.old ≤ most_link }
        ensures body { IsBody result size (unread self.old taken.old (L.left link.old))
            (unread self.new taken.new (L.left link.new)) }
        ensures asks { (link.new ≡ link.old) ⊎ (length (buffered self.old) < size) }
        ensures fault { result ≡ Body.Failed
            → IsShort size (unread self.old taken.old (L.left link.old)) (limited taken.new (L.left link.new)) }
        ensures within { taken.new ≤ most_link }
        ensures cause { Counts (L.fault_count link.old) (L.fault_count link.new) (result ≡ Body.Failed) }
    {
        let mut body = match vec![in alloc; 0u8; size] {
            Ok(body) => body,
            Err(_) => return Body::Memory,
        };
        let mut filled = 0;
        'filling: while filled < size {
            match self.fill(link, taken, &mut body[filled..]) {
                Took::Bytes(count) => filled += count,
                Took::Ended => return Body::Cut,
                Took::Failed => return Body::Failed,
            }
        }
        Body::Whole(body)
    }
}
