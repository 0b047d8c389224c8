//! A gate that shows how many workers decode at once.
use command_decode::DecodeFault;
use fleet_app::{Gate, OpenGate};
use fleet_rows::{Change, Command};
use std::alloc::Global;
use std::sync::atomic::{AtomicU64, Ordering};
use std::thread::yield_now;

/// Lets no command go until so many have come, for so many turns at most.
#[derive(Drop)]
pub(crate) struct FullGate {
    wanted: u64,
    turns: u64,
    came: AtomicU64,
    early: AtomicU64,
}

impl FullGate {
    pub(crate) fn new(wanted: u64, turns: u64) -> FullGate {
        FullGate {
            wanted,
            turns,
            came: AtomicU64::new(0),
            early: AtomicU64::new(0),
        }
    }

    /// How many commands went before all had come.
    pub(crate) fn early(&self) -> u64 {
        self.early.load(Ordering::SeqCst)
    }

    fn is_full(&self) -> bool {
        self.came.load(Ordering::SeqCst) >= self.wanted
    }
}

impl Gate for FullGate {
    fn decode(
        &self,
        alloc: Global,
        worker: u32,
        receipt: u64,
        command: &Command,
    ) -> Result<Change, DecodeFault> {
        self.came.fetch_add(1, Ordering::SeqCst);
        for _ in 0..self.turns {
            if self.is_full() {
                break;
            }
            yield_now();
        }
        if !self.is_full() {
            self.early.fetch_add(1, Ordering::SeqCst);
        }
        OpenGate.decode(alloc, worker, receipt, command)
    }
}
