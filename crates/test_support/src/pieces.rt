//! The ends of a stream: bytes that come in pieces, and room for what is written.
use port_memory::fleet_ports::{Put, Sink, Source, Took};
use std::alloc::Global;

/// Bytes that come so many a call, at least one. The call with the number `fails_at`, counted from 1, is a fault.
#[derive(Drop)]
pub struct Pieces {
    bytes: Vec<u8>,
    at: usize,
    piece: usize,
    fails_at: u64,
    calls: u64,
    faults: u64,
}

impl Pieces {
    pub fn new(bytes: Vec<u8>, piece: usize, fails_at: u64) -> Pieces {
        Pieces {
            bytes,
            at: 0,
            piece,
            fails_at,
            calls: 0,
            faults: 0,
        }
    }

    /// How many bytes didn't come yet.
    pub fn left(&self) -> usize {
        self.bytes.as_slice().len().saturating_sub(self.at)
    }

    /// How many calls failed.
    pub fn faults(&self) -> u64 {
        self.faults
    }
}

impl Source for Pieces {
    ghost use Rattle.std.specs.Prelude.{None};

    ghost left = { λ _. None };

    ghost fault_count = { λ s. s.faults };

    fn read_some(&mut self, into: &mut [u8]) -> Took {
        self.calls = self.calls.saturating_add(1);
        if self.calls == self.fails_at {
            self.faults = self.faults.saturating_add(1);
            return Took::Failed;
        }
        let bytes = self.bytes.as_slice();
        if self.at >= bytes.len() {
            return Took::Ended;
        }
        let count = into.len().min(bytes.len() - self.at).min(self.piece.max(1));
        into[..count].copy_from_slice(&bytes[self.at..self.at + count]);
        self.at += count;
        Took::Bytes(count)
    }
}

/// Takes what is written up to so many bytes.
#[derive(Drop)]
pub struct Room {
    written: Vec<u8>,
    room: usize,
    faults: u64,
}

impl Room {
    pub fn new(alloc: Global, room: usize) -> Room {
        Room {
            written: Vec::new(alloc),
            room,
            faults: 0,
        }
    }

    /// What was written.
    pub fn written(&self) -> &[u8] {
        self.written.as_slice()
    }
}

impl Sink for Room {
    ghost use Rattle.std.specs.Prelude.{None};

    ghost held = { λ _. None };

    ghost fault_count = { λ s. s.faults };

    fn write_some(&mut self, piece: &[u8]) -> Put {
        let left = self.room.saturating_sub(self.written.len());
        let count = left.min(piece.len());
        if count == 0 || self.written.extend_from_slice(&piece[..count]).is_err() {
            self.faults = self.faults.saturating_add(1);
            return Put::Failed;
        }
        Put::Took(count)
    }
}
