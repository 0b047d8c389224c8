//! A list of pending commands, and a number above its receipts: the next receipt.
ghost use Rattle.std.specs.Prelude.{◌≡◌, IsTrue};
ghost use Rattle.supersede_core.specs.core_machine.Claims.{is_claimed};
ghost use Rattle.supersede_core.specs.Waiting.{AreBelow, stands, is_queued};
ghost use Rattle.std.proofs.Props.{props};

use fleet_rows::{Command, Group, Kind, Shared};
use json_tree::{Bytes, Text};
use stamp_time::Moment;
use std::alloc::{AllocError, Global};
use supersede_core::Pending;

/// The pending commands, and a number above their receipts.
#[derive(Drop)]
pub(crate) struct Queue {
    pub pending: Pending,
    next: u64,
    ghost below: { AreBelow next pending } by { Prim.hlevel props },
}

/// Whether the command is pending and not claimed.
fn is_queued(pending: &Pending, receipt: u64) -> bool
    ensures { result ≡ is_queued receipt pending.now }
{
    match pending.entry(receipt) {
        Some(entry) => !entry.claimed,
        None => false,
    }
}

/// Whether the command is pending and claimed.
fn is_claimed(pending: &Pending, receipt: u64) -> bool
    ensures { result ≡ is_claimed receipt pending.now }
{
    match pending.entry(receipt) {
        Some(entry) => entry.claimed,
        None => false,
    }
}

/// Whether the command is pending.
fn stands(pending: &Pending, receipt: u64) -> bool
    ensures { result ≡ stands receipt pending.now }
{
    pending.entry(receipt).is_some()
}

/// A command whose payload has so many bytes.
pub(crate) fn command(alloc: Global, size: usize) -> Result<Shared, AllocError> {
    let payload = vec![in alloc; b'x'; size]?;
    Shared::new(
        alloc,
        Command {
            kind: Kind::Facts,
            version: 5,
            received: Moment::from_nanosecond(0),
            payload: Bytes::from_vec(payload),
        },
    )
}

/// What newer commands supersede within: the node of that number and the kind, and the producer's timestamp.
pub(crate) fn group(
    alloc: Global,
    node: Option<usize>,
    kind: Kind,
    stamp: i64,
) -> Result<Option<(Group, Moment)>, AllocError> {
    let Some(node) = node else {
        return Ok(None);
    };
    let certname = Text::from_string(format!(in alloc; "node{node}")?);
    let group = Group { certname, kind };
    Ok(Some((group, Moment::from_nanosecond(stamp as i128))))
}

/// Adds a command of this size and group. Its receipt, or none where there is no room.
pub(crate) fn added(
    alloc: Global,
    queue: &mut Queue,
    size: usize,
    group: Option<(Group, Moment)>,
) -> Result<Option<u64>, AllocError> {
    match command(alloc, size) {
        Ok(command) => queue.add(command, group),
        Err(fault) => {
            drop(group);
            Err(fault)
        }
    }
}

impl Queue {
    pub(crate) fn new(alloc: Global) -> Queue {
        Queue {
            pending: Pending::new(alloc),
            next: 1,
        }
    }

    /// Adds a command. Its receipt, or none where there is no room.
    pub(crate) fn add(
        &mut self,
        command: Shared,
        group: Option<(Group, Moment)>,
    ) -> Result<Option<u64>, AllocError> {
        if self.pending.count() >= 262_144 || self.next == u64::MAX {
            return Ok(None);
        }
        let receipt = self.next;
        self.pending.add(receipt, command, group, 0)?;
        self.next = receipt + 1;
        Ok(Some(receipt))
    }

    /// Whether the command was queued, and is claimed now.
    pub(crate) fn mark(&mut self, receipt: u64) -> bool {
        let queued = is_queued(&self.pending, receipt);
        if queued {
            self.pending.mark(receipt);
        }
        queued
    }

    /// Whether the command was claimed, and is queued now.
    pub(crate) fn unmark(&mut self, receipt: u64) -> bool {
        let claimed = is_claimed(&self.pending, receipt);
        if claimed {
            self.pending.unmark(receipt);
        }
        claimed
    }

    /// Takes a command out. Whether it was pending.
    pub(crate) fn take(&mut self, receipt: u64) -> bool {
        let there = stands(&self.pending, receipt);
        if there {
            let entry = self.pending.take(receipt);
            return entry.receipt == receipt;
        }
        false
    }

    /// Counts a failure. How many the command has then; none if it isn't pending or has sixteen already.
    pub(crate) fn count_failure(&mut self, receipt: u64) -> Option<u32> {
        let attempts = match self.pending.entry(receipt) {
            Some(entry) => entry.attempts,
            None => return None,
        };
        if attempts < 16 {
            return Some(self.pending.count_failure(receipt));
        }
        None
    }
}
