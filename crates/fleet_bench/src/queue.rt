//! Fills a queue of commands and drains it, so that a script can time it.
//!
//! `fleet_bench queue KIND COUNT` adds COUNT commands: all of one group (`one`), each of its own (`own`), or without a group
//! (`none`). Until none is pending, it claims the first candidate, fails it once and gives it back. Then it claims the first
//! candidate and takes it out. Those are eleven calls for each command, with the look-ups between them. It prints the number of
//! commands taken out.
ghost use Rattle.std.specs.Prelude.{◌≡◌};
ghost use Rattle.supersede_core.specs.core_machine.Claims.{is_claimed};
ghost use Rattle.supersede_core.specs.Waiting.{AreBelow};
ghost use Rattle.std.proofs.Props.{props};

use anyhow::{Result, bail};
use command_decode::json_tree::{Bytes, Text};
use std::alloc::{AllocError, Global};
use std::env::Args;
use supersede_core::Pending;
use supersede_core::fleet_rows::{Command, Group, Kind, Shared};
use supersede_core::stamp_time::Moment;

/// The pending commands, and a number above their receipts.
#[derive(Drop)]
struct Queue {
    pending: Pending,
    next: u64,
    ghost below: { AreBelow next pending } by { Prim.hlevel props },
}

/// Whether the command is pending and claimed.
fn is_claimed(pending: &Pending, receipt: u64) -> bool
    ensures { result ≡ is_claimed receipt pending.now }
{
    match pending.entry(receipt) {
        Some(entry) => entry.claimed,
        None => false,
    }
}

impl Queue {
    /// Adds a command. Answers whether there was room.
    fn add(&mut self, command: Shared, group: Option<(Group, Moment)>) -> Result<bool, AllocError> {
        if self.pending.count() >= 262_144 || self.next == u64::MAX {
            return Ok(false);
        }
        let receipt = self.next;
        self.pending.add(receipt, command, group, 0)?;
        self.next = receipt + 1;
        Ok(true)
    }

    /// Claims the first candidate.
    fn claim(&mut self) -> Option<u64> {
        let Some(receipt) = self.pending.least() else {
            return None;
        };
        self.pending.mark(receipt);
        Some(receipt)
    }

    /// Counts a failure. Answers whether the count rose.
    fn fail(&mut self, receipt: u64) -> bool {
        let attempts = match self.pending.entry(receipt) {
            Some(entry) => entry.attempts,
            None => return false,
        };
        if attempts < 16 {
            return self.pending.count_failure(receipt) > attempts;
        }
        false
    }

    /// Gives a claimed command back. Answers whether it was claimed.
    fn release(&mut self, receipt: u64) -> bool {
        let claimed = is_claimed(&self.pending, receipt);
        if claimed {
            self.pending.unmark(receipt);
        }
        claimed
    }

    /// Takes a command out. Answers whether it was pending.
    fn take(&mut self, receipt: u64) -> bool {
        if self.pending.entry(receipt).is_some() {
            let entry = self.pending.take(receipt);
            return entry.receipt == receipt;
        }
        false
    }

    fn work(&mut self) -> bool {
        let Some(receipt) = self.claim() else {
            return false;
        };
        if !self.fail(receipt) || !self.release(receipt) {
            return false;
        }
        match self.claim() {
            Some(receipt) => self.take(receipt),
            None => false,
        }
    }
}

/// The group of a command of this kind of run, if it has one.
fn group(alloc: Global, kind: &str, i: u32) -> Result<Option<(Group, Moment)>> {
    let node = match kind {
        "one" => 0,
        "own" => i,
        "none" => return Ok(None),
        _ => bail!("fleet_bench queue one|own|none COUNT"),
    };
    let group = Group {
        certname: Text::from_string(format!(in alloc; "node{node}.example.com")?),
        kind: Kind::Facts,
    };
    Ok(Some((group, Moment::from_nanosecond(i as i128))))
}

fn command(alloc: Global) -> Result<Shared, AllocError> {
    let payload = Bytes::from_slice(alloc, b"{}")?;
    Shared::new(
        alloc,
        Command {
            kind: Kind::Facts,
            version: 5,
            received: Moment::from_nanosecond(0),
            payload,
        },
    )
}

fn fill(alloc: Global, queue: &mut Queue, kind: &str, count: u32) -> Result<()> {
    let command = command(alloc)?;
    for i in 0..count {
        let group = group(alloc, kind, i)?;
        if !queue.add(command.share()?, group)? {
            bail!("no room");
        }
    }
    Ok(())
}

fn drain(queue: &mut Queue) -> u32 {
    let mut taken = 0;
    for i in 0..262_144u32 {
        if !queue.work() {
            return taken;
        }
        taken = i + 1;
    }
    taken
}

pub(crate) fn run(rt: &HostRuntime, mut words: Args) -> Result<()> {
    let alloc = rt.alloc();
    let (Some(kind), Some(count)) = (words.next(), words.next()) else {
        bail!("fleet_bench queue one|own|none COUNT");
    };
    let count = count.as_str().parse::<u32>()?;
    let mut queue = Queue {
        pending: Pending::new(alloc),
        next: 1,
    };
    fill(alloc, &mut queue, kind.as_str(), count)?;
    let taken = drain(&mut queue);
    println!(rt; "{taken}")?;
    Ok(())
}
