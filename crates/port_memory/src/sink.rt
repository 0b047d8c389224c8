//! A sink in memory.
ghost use Rattle.std.specs.Prelude.{◌≡◌, ◌<◌, ◌⊎◌, [], length, Some, IsTrue};
ghost use Rattle.fleet_ports.specs.Counts.{Counts};
ghost use Rattle.fleet_ports.specs.Streams.{Puts};
ghost use Rattle.port_memory.specs.Calls.{is_listed, next};
ghost use Rattle.port_memory.specs.Streams.{bytes_held, sink_fails, sink_calls, sink_faults, sink_starved};

use crate::numbers::Numbers;
use fleet_ports::{Put, Sink};
use std::alloc::Global;

/// A list of bytes to which each write appends. Contracts know its content.
#[derive(Drop)]
pub struct MemorySink {
    bytes: Vec<u8>,
    fail: Numbers,
    calls: u64,
    faults: u64,
    starved: u64,
}

impl MemorySink {
    /// An empty sink. Its calls with the listed numbers fail, counted from 1. It allocates nothing.
    pub fn new(alloc: Global, fail: Numbers) -> MemorySink
        ensures empty { bytes_held result ≡ [] }
        ensures fails { sink_fails result ≡ fail }
        ensures calls { sink_calls result ≡ 0 }
        ensures faults { sink_faults result ≡ 0 }
        ensures starved { sink_starved result ≡ 0 }
    {
        MemorySink {
            bytes: Vec::new(alloc),
            fail,
            calls: 0,
            faults: 0,
            starved: 0,
        }
    }

    /// The bytes that the sink took.
    pub fn held(&self) -> &[u8]
        ensures value { result.now ≡ bytes_held self.now }
    {
        self.bytes.as_slice()
    }

    /// The number of calls that failed for lack of memory.
    pub fn starved(&self) -> u64
        ensures count { result ≡ sink_starved self.now }
    {
        self.starved
    }
}

impl Sink for MemorySink {
    ghost held = { λ s. Some (bytes_held s) };

    ghost fault_count = { λ s. sink_faults s };

    fn write_some(&mut self, piece: &[u8]) -> Put
        requires some { 0 < length piece.now }
        ensures bytes { Puts result piece.now (Some (bytes_held self.old)) (Some (bytes_held self.new)) }
        ensures cause { Counts (sink_faults self.old) (sink_faults self.new) (result ≡ Put.Failed) }
        ensures fault { result ≡ Put.Failed → sink_faults self.new ≡ next (sink_faults self.old) }
        ensures fails { IsTrue (is_listed (sink_fails self.old) (sink_calls self.new)) → result ≡ Put.Failed }
        ensures starved { result ≡ Put.Failed → (IsTrue (is_listed (sink_fails self.old) (sink_calls self.new)) → ⊥) → sink_starved self.new
            ≡ next (sink_starved self.old) }
        ensures fed { IsTrue (is_listed (sink_fails self.old) (sink_calls self.new)) → sink_starved self.new ≡ sink_starved self.old }
        ensures calm { (result ≡ Put.Failed → ⊥) → sink_starved self.new ≡ sink_starved self.old }
        ensures calls { sink_calls self.new ≡ next (sink_calls self.old) }
        ensures same { sink_fails self.new ≡ sink_fails self.old }
    {
        self.calls = self.calls.saturating_add(1);
        if self.fail.lists(self.calls) {
            self.faults = self.faults.saturating_add(1);
            return Put::Failed;
        }
        match self.bytes.extend_from_slice(piece) {
            Ok(()) => Put::Took(piece.len()),
            Err(_) => {
                self.starved = self.starved.saturating_add(1);
                self.faults = self.faults.saturating_add(1);
                Put::Failed
            }
        }
    }
}
