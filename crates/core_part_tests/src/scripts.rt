//! Generated scripts of calls: after each call the list answers as the plain program does.
ghost use Rattle.std.specs.Prelude.{◌<◌};

use crate::plain::{Waiting, told_of};
use crate::queue::{Queue, added, group};
use fleet_rows::Kind;
use std::alloc::{AllocError, Global};

const KINDS: [Kind; 2] = [Kind::Facts, Kind::Catalog];

// The next of a sequence of numbers by Knuth's linear congruences, below n.
fn below(state: &mut u64, n: u64) -> u64
    requires { 0 < n }
    ensures { result < n }
{
    *state = state
        .wrapping_mul(6_364_136_223_846_793_005)
        .wrapping_add(1_442_695_040_888_963_407);
    (*state >> 33) % n
}

// Adds a command of one of three nodes and two kinds, or of no group; the stamps are few, so that many are equal.
fn add(
    alloc: Global,
    state: &mut u64,
    queue: &mut Queue,
    plain: &mut Vec<Waiting>,
) -> Result<bool, AllocError> {
    let number = below(state, 4);
    let node = (number < 3).then_some(number as usize);
    let kind = below(state, 2) as usize;
    let stamp = below(state, 5) as i64;
    let size = below(state, 9);
    let group = group(alloc, node, KINDS[kind], stamp)?;
    let Some(receipt) = added(alloc, queue, size as usize, group)? else {
        return Ok(true);
    };
    plain.push(Waiting {
        receipt,
        group: node.map(|node| (node, kind)),
        stamp,
        attempts: 0,
        claimed: false,
        size,
    })?;
    Ok(true)
}

// A command is claimed or released, or the store fails at it. Whether the list answers so.
fn change(queue: &mut Queue, waiting: &mut Waiting, call: u64) -> bool {
    if call == 7 {
        if waiting.attempts >= 16 {
            return true;
        }
        waiting.attempts += 1;
        return queue.count_failure(waiting.receipt) == Some(waiting.attempts);
    }
    waiting.claimed = !waiting.claimed;
    if waiting.claimed {
        queue.mark(waiting.receipt)
    } else {
        queue.unmark(waiting.receipt)
    }
}

fn place_at(plain: &[Waiting], receipt: u64) -> Option<usize> {
    for (at, waiting) in plain.iter().enumerate() {
        if waiting.receipt == receipt {
            return Some(at);
        }
    }
    None
}

// The place of the command that a call changes: that of the first candidate where a worker claims it, else any.
fn place_of(state: &mut u64, queue: &Queue, plain: &[Waiting], call: u64) -> Option<usize> {
    if call == 4 {
        let least = queue.pending.least()?;
        return place_at(plain, least);
    }
    let count = plain.len() as u64;
    if count == 0 {
        None
    } else {
        Some(below(state, count) as usize)
    }
}

// One call, by a number.
fn step(
    alloc: Global,
    state: &mut u64,
    queue: &mut Queue,
    plain: &mut Vec<Waiting>,
) -> Result<bool, AllocError> {
    let call = below(state, 10);
    if call < 4 {
        return add(alloc, state, queue, plain);
    }
    let Some(at) = place_of(state, queue, plain.as_slice(), call) else {
        return Ok(true);
    };
    if call > 7 && at < plain.len() {
        let waiting = plain.remove(at);
        return Ok(queue.take(waiting.receipt));
    }
    match plain.as_mut_slice().get_mut(at) {
        Some(waiting) => Ok(change(queue, waiting, call)),
        None => Ok(false),
    }
}

fn entries_agree(queue: &Queue, plain: &[Waiting]) -> bool {
    for (i, waiting) in plain.iter().enumerate() {
        if i >= queue.pending.count() as usize {
            return false;
        }
        let entry = queue.pending.at(i);
        let same = entry.receipt == waiting.receipt
            && entry.attempts == waiting.attempts
            && entry.claimed == waiting.claimed
            && entry.group.is_some() == waiting.group.is_some();
        if !same {
            return false;
        }
    }
    true
}

fn agree(queue: &Queue, plain: &[Waiting]) -> bool {
    let pending = &queue.pending;
    (pending.least(), pending.queued(), pending.size()) == told_of(plain)
        && pending.count() as usize == plain.len()
        && entries_agree(queue, plain)
}

// Behind how many of 400 calls the list answers otherwise, from this number on.
fn differs_at(alloc: Global, seed: u64) -> Result<Option<u64>, AllocError> {
    let mut state = seed;
    let mut queue = Queue::new(alloc);
    let mut plain = Vec::new(alloc);
    for at in 0..400 {
        let answered = step(alloc, &mut state, &mut queue, &mut plain)?;
        if !answered || !agree(&queue, plain.as_slice()) {
            return Ok(Some(at));
        }
    }
    Ok(None)
}

#[test]
fn the_list_answers_as_the_plain_program(rt: HostRuntime) -> Result<(), AllocError> {
    for seed in [1, 2, 3] {
        let at = differs_at(rt.alloc(), seed)?;
        assert!(rt; at.is_none(), "seed {seed}");
    }
    Ok(())
}
