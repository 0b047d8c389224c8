//! A gate that waits, or finds no memory.
use command_decode::{DecodeFault, decode};
use fleet_hub::Gate;
use fleet_rows::{Change, Command};
use std::alloc::Global;
use std::sync::atomic::{AtomicU64, Ordering};
use std::thread::yield_now;

/// Lets no command go until it was called for two receipts, for so many turns at most; or finds no memory so many times.
#[derive(Drop)]
pub(crate) struct TestGate {
    waits: bool,
    /// How many times it finds no memory.
    left: AtomicU64,
    /// The first two receipts that it was called for.
    first: AtomicU64,
    second: AtomicU64,
    /// How many commands went when both were there.
    met: AtomicU64,
}

impl TestGate {
    pub(crate) fn new(waits: bool, left: u64) -> TestGate {
        TestGate {
            waits,
            left: AtomicU64::new(left),
            first: AtomicU64::new(0),
            second: AtomicU64::new(0),
            met: AtomicU64::new(0),
        }
    }

    /// How many commands met, and whether one found no memory, where that goes on for ever.
    pub(crate) fn told(&self) -> (u64, bool) {
        let left = self.left.load(Ordering::SeqCst);
        (self.met.load(Ordering::SeqCst), left > 0 && left < u64::MAX)
    }

    fn meet(&self, receipt: u64) {
        let before = self.first.swap(receipt, Ordering::SeqCst);
        if before != 0 && before != receipt {
            self.second.store(before, Ordering::SeqCst);
        }
        for _ in 0..1_000_000 {
            if self.second.load(Ordering::SeqCst) != 0 {
                self.met.fetch_add(1, Ordering::SeqCst);
                break;
            }
            yield_now();
        }
    }
}

impl Gate for TestGate {
    fn decode(
        &self,
        alloc: Global,
        _worker: u32,
        receipt: u64,
        command: &Command,
    ) -> Result<Change, DecodeFault> {
        if self.waits {
            self.meet(receipt);
        }
        let left = self.left.load(Ordering::SeqCst);
        if left > 0 {
            self.left.store(left - 1, Ordering::SeqCst);
            return Err(DecodeFault::Memory);
        }
        decode(alloc, command)
    }
}
