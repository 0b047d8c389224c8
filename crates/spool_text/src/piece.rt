//! Buffers the bytes that were read from the source and belong to no returned item.
//!
//! The bytes lie in one buffer, from `start` to `end`. The source is read only if these bytes don't decide the next answer, and
//! then for at least 64 KiB: the buffer has that much room after an incomplete line, and the missing part of a large payload is
//! read directly into the payload. Bytes move to the buffer's front only before a read, and then at most 200 of them.
ghost use Rattle.std.specs.Prelude.{◌≡◌, ◌-◌, ◌+◌, ◌≤◌, ◌<◌, [], ◌++◌, length, take, drop, min, vec_len, OnOk, IfSome, IfNone};
ghost use Rattle.std.specs.Io.KnownBytes.{Keeps, Consumes, IsAtEnd, prepend_known};
ghost use Rattle.spool_maker.specs.fleet_ports.Counts.{Counts};
ghost use Rattle.spool_maker.specs.fleet_ports.Streams.{Takes};
ghost use Rattle.spool_text.specs.Lost.{LosesUpTo};

use spool_maker::fleet_ports::{Source, Took};
use std::alloc::{AllocError, Global};

/// The least number of bytes that a read asks for.
pub(crate) const PIECE: usize = 65_536;

/// The size of the buffer in bytes: one piece, and an incomplete line before it.
pub(crate) const ROOM: usize = PIECE + 256;

/// The most bytes of a first line, including its line feed.
pub(crate) const MOST_LINE: usize = 201;

/// The bytes that were read and belong to no returned item.
#[derive(Drop)]
pub(crate) struct Piece {
    pub(crate) bytes: Vec<u8>,
    pub(crate) start: usize,
    pub(crate) end: usize,
    ghost order: { start ≤ end },
    ghost inside: { end ≤ vec_len bytes },
}

/// What the remaining bytes begin with.
pub(crate) enum Front {
    /// A line of this many bytes, followed by its line feed.
    Line(usize),
    /// No line of at most 200 bytes.
    NoLine,
    /// No byte remains.
    Nothing,
    /// The source failed.
    Failed,
}

/// The result of taking a payload.
#[derive(Drop)]
pub(crate) enum Payload {
    /// The whole payload.
    Whole(Vec<u8>),
    /// The bytes end before the payload does.
    Cut,
    /// The source failed.
    Failed,
    /// There was no memory.
    Memory,
}

/// The result of taking a line feed.
pub(crate) enum Feed {
    /// The next byte was a line feed, which was taken.
    Taken,
    /// The next byte is no line feed.
    Missing,
    /// The source failed.
    Failed,
}

impl Piece {
    ghost use Rattle.spool_text.specs.Unread.{buffered, HasLine, HasNoLine, IsFront, IsPayload, IsFeed, IsShort, Grows};

    /// An empty buffer.
    pub(crate) fn new(alloc: Global) -> Piece
        ensures { buffered result ≡ [] }
    {
        Piece {
            bytes: Vec::new(alloc),
            start: 0,
            end: 0,
        }
    }

    /// Allocates the buffer on the first call.
    pub(crate) fn prepare(&mut self, alloc: Global) -> Result<(), AllocError>
        ensures ready { OnOk result (ROOM ≤ vec_len self.new.bytes) }
        ensures same { buffered self.new ≡ buffered self.old }
    {
        if self.bytes.len() < ROOM {
            self.bytes.resize(ROOM, 0)?;
        }
        Ok(())
    }

    /// The buffered bytes.
    pub(crate) fn as_slice(&self) -> &[u8]
        ensures { result.now ≡ buffered self.now }
    {
        &self.bytes[self.start..self.end]
    }

    fn len(&self) -> usize
        ensures { result ≡ length (buffered self.now) }
    {
        self.end - self.start
    }

    /// Drops the first `count` bytes.
    pub(crate) fn advance(&mut self, count: usize)
        requires { count ≤ length (buffered self.old) }
        ensures rest { buffered self.new ≡ drop count (buffered self.old) }
        ensures room { vec_len self.new.bytes ≡ vec_len self.old.bytes }
    {
        self.start += count;
    }

    // Moves the bytes to the front of the buffer.
    fn move_to_front(&mut self)
        ensures same { buffered self.new ≡ buffered self.old }
        ensures front { self.new.start ≡ 0 }
        ensures room { vec_len self.new.bytes ≡ vec_len self.old.bytes }
    {
        if self.start > 0 {
            self.bytes.copy_within(self.start..self.end, 0);
            self.end -= self.start;
            self.start = 0;
        }
    }

    // Reads more bytes after the buffered ones.
    fn refill<S: Source + Drop>(&mut self, source: &mut S) -> Took
        requires ready { ROOM ≤ vec_len self.old.bytes }
        requires few { length (buffered self.old) < MOST_LINE }
        ensures keeps { Keeps (prepend_known (buffered self.old) (S.left source.old))
            (prepend_known (buffered self.new) (S.left source.new)) }
        ensures grows { Grows result (buffered self.old) (buffered self.new) }
        ensures end { result ≡ Took.Ended → IsAtEnd (S.left source.new) }
        ensures room { vec_len self.new.bytes ≡ vec_len self.old.bytes }
        ensures cause { Counts (S.fault_count source.old) (S.fault_count source.new) (result ≡ Took.Failed) }
    {
        self.move_to_front();
        match source.read_some(&mut self.bytes[self.end..]) {
            Took::Bytes(count) => {
                self.end += count;
                Took::Bytes(count)
            }
            Took::Ended => Took::Ended,
            Took::Failed => Took::Failed,
        }
    }

    // Moves bytes to the front of a slice, as many as there are and as it has room for.
    fn give(&mut self, into: &mut [u8]) -> usize
        ensures count { result ≡ min (length (buffered self.old)) (length into.old) }
        ensures moved { buffered self.old ≡ take result into.new ++ buffered self.new }
        ensures room { vec_len self.new.bytes ≡ vec_len self.old.bytes }
    {
        let count = self.len().min(into.len());
        into[..count].copy_from_slice(&self.as_slice()[..count]);
        self.advance(count);
        count
    }

    // Fills the front of a slice with the next bytes, from the buffer first and then from the source.
    fn fill<S: Source + Drop>(&mut self, source: &mut S, into: &mut [u8]) -> Took
        requires ready { ROOM ≤ vec_len self.old.bytes }
        requires some { 0 < length into.old }
        ensures bytes { Takes result into.new (prepend_known (buffered self.old) (S.left source.old))
            (prepend_known (buffered self.new) (S.left source.new)) }
        ensures none { result ≡ Took.Failed → length (buffered self.new) ≡ 0 }
        ensures room { vec_len self.new.bytes ≡ vec_len self.old.bytes }
        ensures cause { Counts (S.fault_count source.old) (S.fault_count source.new) (result ≡ Took.Failed) }
    {
        if self.len() > 0 {
            return Took::Bytes(self.give(into));
        }
        if into.len() >= PIECE {
            return source.read_some(into);
        }
        match self.refill(source) {
            Took::Bytes(_) => Took::Bytes(self.give(into)),
            Took::Ended => Took::Ended,
            Took::Failed => Took::Failed,
        }
    }

    // The offset of the line feed that ends the first line.
    fn find_line(&self) -> Option<usize>
        ensures found { IfSome result (λ n. HasLine n (buffered self.now)) }
        ensures within { IfSome result (λ n. n < MOST_LINE) }
        ensures none { IfNone result (HasNoLine (buffered self.now)) }
    {
        let bytes = self.as_slice();
        let mut at = 0;
        'looking: while at < bytes.len() && at < MOST_LINE {
            if bytes[at] == b'\n' {
                return Some(at);
            }
            at += 1;
        }
        None
    }

    /// Tells what the remaining bytes begin with, and reads more if needed.
    pub(crate) fn front<S: Source + Drop>(&mut self, source: &mut S) -> Front
        requires ready { ROOM ≤ vec_len self.old.bytes }
        ensures keeps { Keeps (prepend_known (buffered self.old) (S.left source.old))
            (prepend_known (buffered self.new) (S.left source.new)) }
        ensures front { IsFront result (buffered self.new) (prepend_known (buffered self.new) (S.left source.new)) }
        ensures room { vec_len self.new.bytes ≡ vec_len self.old.bytes }
        ensures cause { Counts (S.fault_count source.old) (S.fault_count source.new) (result ≡ Front.Failed) }
    {
        'reading: loop {
            match self.find_line() {
                Some(len) => return Front::Line(len),
                None => {}
            }
            if self.len() >= MOST_LINE {
                return Front::NoLine;
            }
            match self.refill(source) {
                Took::Bytes(_) => {}
                Took::Ended => return if self.len() > 0 {
                    Front::NoLine
                } else {
                    Front::Nothing
                },
                Took::Failed => return Front::Failed,
            }
        }
    }

    /// Takes a payload of `size` bytes.
    pub(crate) fn take_payload<S: Source + Drop>(
        &mut self,
        alloc: Global,
        source: &mut S,
        size: usize,
    ) -> Payload
        requires ready { ROOM ≤ vec_len self.old.bytes }
        ensures payload { IsPayload result size (prepend_known (buffered self.old) (S.left source.old))
            (prepend_known (buffered self.new) (S.left source.new)) }
        ensures lost { LosesUpTo size (prepend_known (buffered self.old) (S.left source.old))
            (prepend_known (buffered self.new) (S.left source.new)) }
        ensures fault { result ≡ Payload.Failed
            → IsShort size (prepend_known (buffered self.old) (S.left source.old)) (S.left source.new) }
        ensures room { vec_len self.new.bytes ≡ vec_len self.old.bytes }
        ensures cause { Counts (S.fault_count source.old) (S.fault_count source.new) (result ≡ Payload.Failed) }
    {
        let mut payload = match vec![in alloc; 0u8; size] {
            Ok(payload) => payload,
            Err(_) => return Payload::Memory,
        };
        let mut filled = 0;
        'filling: while filled < size {
            match self.fill(source, &mut payload[filled..]) {
                Took::Bytes(count) => filled += count,
                Took::Ended => return Payload::Cut,
                Took::Failed => return Payload::Failed,
            }
        }
        Payload::Whole(payload)
    }

    /// Takes one line feed.
    pub(crate) fn take_feed<S: Source + Drop>(&mut self, source: &mut S) -> Feed
        requires ready { ROOM ≤ vec_len self.old.bytes }
        ensures feed { IsFeed result (prepend_known (buffered self.old) (S.left source.old))
            (prepend_known (buffered self.new) (S.left source.new)) }
        ensures lost { LosesUpTo 1 (prepend_known (buffered self.old) (S.left source.old))
            (prepend_known (buffered self.new) (S.left source.new)) }
        ensures fault { result ≡ Feed.Failed
            → Consumes (prepend_known (buffered self.old) (S.left source.old)) (S.left source.new) [] }
        ensures room { vec_len self.new.bytes ≡ vec_len self.old.bytes }
        ensures cause { Counts (S.fault_count source.old) (S.fault_count source.new) (result ≡ Feed.Failed) }
    {
        let mut byte = [0u8; 1];
        match self.fill(source, &mut byte) {
            Took::Bytes(_) => if byte[0] == b'\n' {
                Feed::Taken
            } else {
                Feed::Missing
            },
            Took::Ended => Feed::Missing,
            Took::Failed => Feed::Failed,
        }
    }
}
