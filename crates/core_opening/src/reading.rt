//! Reads the queue's log, frame by frame.
ghost use Rattle.std.specs.Prelude.{◌≡◌, ◌==◌, ℕ, List, ◌∷◌, ◌++◌, [], length, reverse, MatchResult, IsTrue, true, false, IfOk};
ghost use Rattle.core_state.specs.record_spec.declared.queue.QueueRecord.{QueueRecord as Rec};
ghost use Rattle.core_state.specs.core_spec.Damage.{MayQueue};
ghost use Rattle.core_state.specs.queue_records.Reading.{queue_at};
ghost use Rattle.core_opening.specs.Replayed.{IsSoFar, IsReading, MatchReading, TakesFrame};

use crate::groups::with_groups;
use crate::prefix::LogPrefix;
use crate::replay::{last_with, replay};
use command_key::json_tree::Bytes;
use core_state::QueueRecords;
use queue_records::read_queue;
use retry_discard::Discards;
use std::alloc::{AllocError, Global};
use std::snapshot::Snapshot;
use supersede_core::Pending;

/// Why frames aren't read as the records of a log.
#[derive(Clone, Copy, Debug, Drop)]
pub(crate) enum UnreadQueue {
    /// A frame is no record, or is one that may not stand there. The number is the byte offset of its gate in the file.
    Damaged(u64),
    /// There was no memory.
    Memory,
}

/// What the records so far lead to. Only contracts see the records themselves: of the payloads, those of pending and discarded
/// commands are in memory. The pending commands have no group yet.
#[derive(Drop)]
pub(crate) struct SoFar {
    pub(crate) records: QueueRecords,
    pub(crate) pending: Pending,
    pub(crate) discards: Discards,
    /// The last receipt.
    pub(crate) last: u64,
    pub(crate) front: LogPrefix,
}

/// What the records of a log lead to. Only contracts see the records themselves.
#[derive(Drop)]
pub(crate) struct Reading {
    pub(crate) found: Snapshot<QueueRecords>,
    pub(crate) pending: Pending,
    pub(crate) discards: Discards,
    /// The last receipt.
    pub(crate) last: u64,
}

/// Reads one more frame. Answers whether it is a record that may stand there.
fn take_frame(alloc: Global, so_far: &mut SoFar, frame: &[u8]) -> Result<bool, AllocError>
    requires { IsSoFar so_far.old }
    ensures { IfOk result (λ taken. TakesFrame taken so_far.old frame.now so_far.new) }
{
    let Some(rec) = read_queue(alloc, frame)? else {
        return Ok(false);
    };
    if !so_far.front.admits(&rec, &so_far.pending) {
        return Ok(false);
    }
    replay(&rec, &mut so_far.pending, &mut so_far.discards)?;
    so_far.last = last_with(&rec, so_far.last);
    so_far.front.follow(&rec);
    so_far.records.push(rec)?;
    Ok(true)
}

/// Ends the reading: gives the pending commands their groups.
fn finish(alloc: Global, so_far: SoFar) -> Result<Reading, AllocError>
    requires { IsSoFar so_far }
    ensures { IfOk result (λ reading. IsReading reading × (reading.found.value ≡ so_far.records)) }
{
    let pending = with_groups(alloc, &so_far.pending)?;
    let found = Snapshot::of(&so_far.records);
    Ok(Reading {
        found,
        pending,
        discards: so_far.discards,
        last: so_far.last,
    })
}

// Whether there is no frame.
fn are_none(frames: &Vec<Bytes>) -> bool
    ensures { result ≡ (length frames.now.items == 0) }
{
    frames.is_empty()
}

/// Reads the frames of a file as a queue's log. Each frame is dropped once it is read, so no two copies of a log are in memory.
pub(crate) fn read_frames(alloc: Global, frames: Vec<Bytes>) -> Result<Reading, UnreadQueue>
    ensures told { MatchReading result frames.items }
{
    let none = are_none(&frames);
    let mut so_far = SoFar {
        records: QueueRecords::new(alloc),
        pending: Pending::new(alloc),
        discards: Discards::new(alloc),
        last: 0,
        front: LogPrefix::new(),
    };
    let mut at = 16u64;
    'reading: for frame in frames {
        let size = frame.as_slice().len() as u64;
        let taken = take_frame(alloc, &mut so_far, frame.as_slice());
        drop(frame);
        match taken {
            Err(_) => return Err(UnreadQueue::Memory),
            Ok(false) => return Err(UnreadQueue::Damaged(at)),
            Ok(true) => at = at.saturating_add(5 + size),
        }
    }
    if none {
        return Err(UnreadQueue::Damaged(at));
    }
    match finish(alloc, so_far) {
        Ok(reading) => Ok(reading),
        Err(_) => Err(UnreadQueue::Memory),
    }
}
