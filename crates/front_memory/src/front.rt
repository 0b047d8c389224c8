//! A front in memory.
ghost use Rattle.std.specs.Prelude.{◌≡◌, [], map, None};
ghost use Rattle.port_memory.specs.Calls.{is_listed, next};
ghost use Rattle.port_memory.specs.Streams.{bytes_left, bytes_held, source_fails, source_faults, sink_fails, sink_faults};

use fleet_ports::Failed;
use front_port::{Arrived, Front, Link};
use http_server::Log;
use port_memory::json_tree::Bytes;
use port_memory::{MemorySink, MemorySource, Numbers, fleet_ports};
use std::alloc::Global;
use std::collections::VecDeque;

/// A front in memory. Contracts know its links.
#[derive(Drop)]
pub struct MemoryFront {
    alloc: Global,
    /// The incoming bytes of the links that are left.
    coming: VecDeque<Bytes>,
    fail: Numbers,
    calls: u64,
    faults: u64,
    lost: u64,
    port: Option<u16>,
    ended: Vec<Link<MemorySource, MemorySink>>,
    handed_out: Log<u8, u8>,
    given_back: Log<Link<MemorySource, MemorySink>, u8>,
    ghost kept: { lost ≡ 0 → ended.items ≡ map (λ entry. entry.0) given_back.items },
}

impl MemoryFront {
    ghost use Rattle.front_memory.specs.Fronts.{listens_of, links_left, links_out, links_given, faults_of, fails_of, calls_of, lost_of};

    /// A front with one link for each of these texts. Its calls with the listed numbers fail, counted from 1. It allocates
    /// nothing.
    pub fn new(alloc: Global, links: VecDeque<Bytes>, fail: Numbers) -> MemoryFront
        ensures listens { listens_of result ≡ None }
        ensures left { links_left result ≡ links.items }
        ensures fails { fails_of result ≡ fail }
        ensures out { links_out result ≡ 0 }
        ensures given { links_given result ≡ [] }
        ensures calls { calls_of result ≡ 0 }
        ensures faults { faults_of result ≡ 0 }
        ensures lost { lost_of result ≡ 0 }
    {
        MemoryFront {
            alloc,
            coming: links,
            fail,
            calls: 0,
            faults: 0,
            lost: 0,
            port: None,
            ended: Vec::new(alloc),
            handed_out: Log::new(),
            given_back: Log::new(),
        }
    }

    /// The port of the last successful call of `listen`.
    pub fn port(&self) -> Option<u16>
        ensures port { result ≡ listens_of self.now }
    {
        self.port
    }

    /// The links that were given back, in order, if none was lost.
    pub fn ended(&self) -> &[Link<MemorySource, MemorySink>]
        ensures links { lost_of self.now ≡ 0 → result.now ≡ links_given self.now }
    {
        self.ended.as_slice()
    }

    /// The number of links that were given back but not kept, for lack of memory.
    pub fn lost(&self) -> u64
        ensures count { result ≡ lost_of self.now }
    {
        self.lost
    }
}

// Counts a call, and returns whether its number is listed.
fn begin(calls: &mut u64, fail: &Numbers) -> bool
    ensures listed { result ≡ is_listed fail.now calls.new }
    ensures calls { calls.new ≡ next calls.old }
{
    *calls = calls.saturating_add(1);
    fail.as_slice().contains(calls)
}

// A link with these incoming bytes. It allocates nothing.
fn link_of(alloc: Global, bytes: Bytes) -> Link<MemorySource, MemorySink>
    ensures left { bytes_left result.incoming ≡ bytes }
    ensures held { bytes_held result.outgoing ≡ [] }
    ensures fails { source_fails result.incoming ≡ [] }
    ensures sink_fails { sink_fails result.outgoing ≡ [] }
    ensures faults { source_faults result.incoming ≡ 0 }
    ensures sink_faults { sink_faults result.outgoing ≡ 0 }
{
    Link {
        incoming: MemorySource::new(bytes, Numbers::new(alloc)),
        outgoing: MemorySink::new(alloc, Numbers::new(alloc)),
    }
}

impl Front for MemoryFront {
    ghost use Rattle.std.specs.Prelude.{◌+◌, ◌++◌, ◌∷◌, ◌↔◌, Some, IsTrue, IsErr, IfOk};
    ghost use Rattle.port_memory.specs.fleet_ports.Counts.{Counts};
    ghost use Rattle.front_port.specs.Links.{HandsOut, IsLast, IfLink, IfNoLink, IsFailed};
    ghost use Rattle.front_memory.specs.Fronts.{given, listens_of, links_left, links_out, links_given, faults_of, fails_of, calls_of, lost_of};

    type Incoming = MemorySource;

    type Outgoing = MemorySink;

    ghost listens = { λ front. listens_of front };

    ghost left = { λ front. Some (links_left front) };

    ghost handed_out = { λ front. links_out front };

    ghost given_back = { λ front. map given (links_given front) };

    ghost fault_count = { λ front. faults_of front };

    fn listen(&mut self, port: u16) -> Result<(), Failed>
        ensures listens { IfOk result (λ _. listens_of self.new ≡ Some port) }
        ensures listens_on { IsErr result → listens_of self.new ≡ listens_of self.old }
        ensures left { links_left self.new ≡ links_left self.old }
        ensures handed_out { links_out self.new ≡ links_out self.old }
        ensures given_back { links_given self.new ≡ links_given self.old }
        ensures cause { Counts (faults_of self.old) (faults_of self.new) (IsErr result) }
        ensures fault { IsErr result → faults_of self.new ≡ next (faults_of self.old) }
        ensures fails { IsErr result ↔ IsTrue (is_listed (fails_of self.old) (calls_of self.new)) }
        ensures calls { calls_of self.new ≡ next (calls_of self.old) }
        ensures same { fails_of self.new ≡ fails_of self.old }
        ensures lost { lost_of self.new ≡ lost_of self.old }
    {
        if begin(&mut self.calls, &self.fail) {
            self.faults = self.faults.saturating_add(1);
            return Err(Failed);
        }
        self.port = Some(port);
        Ok(())
    }

    fn next(&mut self) -> Arrived<Link<MemorySource, MemorySink>>
        ensures link { IfLink result (λ link. HandsOut (Some (links_left self.old)) (Some (links_left self.new))
            (Some (bytes_left link.incoming)) (Some (bytes_held link.outgoing))) }
        ensures calm { IfLink result (λ link. (source_faults link.incoming ≡ 0) × (sink_faults link.outgoing ≡ 0)) }
        ensures never_fails { IfLink result (λ link. (source_fails link.incoming ≡ []) × (sink_fails link.outgoing ≡ [])) }
        ensures counted { IfLink result (λ link. links_out self.new ≡ links_out self.old + 1) }
        ensures ended { result ≡ Arrived.Ended → IsLast (Some (links_left self.old)) }
        ensures listens { listens_of self.new ≡ listens_of self.old }
        ensures stays { IfNoLink result ((links_left self.new ≡ links_left self.old) × (links_out self.new ≡ links_out self.old)) }
        ensures given_back { links_given self.new ≡ links_given self.old }
        ensures cause { Counts (faults_of self.old) (faults_of self.new) (IsFailed result) }
        ensures fault { IsFailed result → faults_of self.new ≡ next (faults_of self.old) }
        ensures fails { IsFailed result ↔ IsTrue (is_listed (fails_of self.old) (calls_of self.new)) }
        ensures calls { calls_of self.new ≡ next (calls_of self.old) }
        ensures same { fails_of self.new ≡ fails_of self.old }
        ensures lost { lost_of self.new ≡ lost_of self.old }
    {
        if begin(&mut self.calls, &self.fail) {
            self.faults = self.faults.saturating_add(1);
            return Arrived::Failed;
        }
        match self.coming.pop_front() {
            Some(bytes) => {
                self.handed_out = self.handed_out.and(&0, &0);
                Arrived::Link(link_of(self.alloc, bytes))
            }
            None => Arrived::Ended,
        }
    }

    fn give_back(&mut self, link: Link<MemorySource, MemorySink>)
        ensures given_back { links_given self.new ≡ links_given self.old ++ link ∷ [] }
        ensures listens { listens_of self.new ≡ listens_of self.old }
        ensures left { links_left self.new ≡ links_left self.old }
        ensures handed_out { links_out self.new ≡ links_out self.old }
        ensures calm { faults_of self.new ≡ faults_of self.old }
        ensures calls { calls_of self.new ≡ calls_of self.old }
        ensures same { fails_of self.new ≡ fails_of self.old }
    {
        self.given_back = self.given_back.and(&link, &0);
        if self.ended.push(link).is_err() {
            self.lost = self.lost.saturating_add(1);
        }
    }
}
