//! A source in memory.
ghost use Rattle.std.specs.Prelude.{◌≡◌, ◌<◌, ◌↔◌, length, Some, IsTrue};
ghost use Rattle.fleet_ports.specs.Counts.{Counts};
ghost use Rattle.fleet_ports.specs.Streams.{Takes};
ghost use Rattle.port_memory.specs.Calls.{is_listed, next};
ghost use Rattle.port_memory.specs.Streams.{bytes_left, source_fails, source_calls, source_faults};

use crate::numbers::Numbers;
use fleet_ports::{Source, Took};
use json_tree::Bytes;

/// A list of bytes, read from the start. Contracts know what is left.
#[derive(Drop)]
pub struct MemorySource {
    bytes: Bytes,
    at: usize,
    fail: Numbers,
    calls: u64,
    faults: u64,
}

impl MemorySource {
    /// A source of these bytes. Its calls with the listed numbers fail, counted from 1. It allocates nothing.
    pub fn new(bytes: Bytes, fail: Numbers) -> MemorySource
        ensures left { bytes_left result ≡ bytes }
        ensures fails { source_fails result ≡ fail }
        ensures calls { source_calls result ≡ 0 }
        ensures faults { source_faults result ≡ 0 }
    {
        MemorySource {
            bytes,
            at: 0,
            fail,
            calls: 0,
            faults: 0,
        }
    }
}

impl Source for MemorySource {
    ghost left = { λ s. Some (bytes_left s) };

    ghost fault_count = { λ s. source_faults s };

    fn read_some(&mut self, into: &mut [u8]) -> Took
        requires room { 0 < length into.old }
        ensures bytes { Takes result into.new (Some (bytes_left self.old)) (Some (bytes_left self.new)) }
        ensures cause { Counts (source_faults self.old) (source_faults self.new) (result ≡ Took.Failed) }
        ensures fault { result ≡ Took.Failed → source_faults self.new ≡ next (source_faults self.old) }
        ensures fails { (result ≡ Took.Failed) ↔ IsTrue (is_listed (source_fails self.old) (source_calls self.new)) }
        ensures calls { source_calls self.new ≡ next (source_calls self.old) }
        ensures same { source_fails self.new ≡ source_fails self.old }
    {
        self.calls = self.calls.saturating_add(1);
        if self.fail.lists(self.calls) {
            self.faults = self.faults.saturating_add(1);
            return Took::Failed;
        }
        let bytes = self.bytes.as_slice();
        if self.at >= bytes.len() {
            return Took::Ended;
        }
        let count = into.len().min(bytes.len() - self.at);
        into[..count].copy_from_slice(&bytes[self.at..self.at + count]);
        self.at += count;
        Took::Bytes(count)
    }
}
