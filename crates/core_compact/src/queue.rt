//! Makes the frames of the queue's checkpoint.
ghost use Rattle.std.specs.Prelude.{◌≡◌, ◌<◌, ◌++◌, map, Some, OnOk, IfOk};
ghost use Rattle.std.specs.List.{AllByRecursion};
ghost use Rattle.core_state.specs.record_spec.declared.queue.QueueRecord.TheVariants as queue;
ghost use Rattle.core_state.specs.record_spec.Queue.{queue_text};
ghost use Rattle.core_state.specs.record_spec.Refusals.{IsCause};
ghost use Rattle.core_state.specs.core_spec.declared.dead.Dead.{Dead as Given};
ghost use Rattle.core_state.specs.core_spec.declared.entry.Entry.{Entry as Waiting};
ghost use Rattle.core_state.specs.core_spec.Checkpoints.{held, dead};
ghost use Rattle.core_state.specs.core_spec.Pending.{NoneIsWornOut};
ghost use Rattle.core_state.specs.queue_records.Reading.{queue_at};
ghost use Rattle.core_state.specs.Seen.{IsFit};
ghost use Rattle.core_compact.specs.Anew.{AreRead, AreFramesOf};
ghost use Rattle.core_compact.specs.Compacts.{queue_records_of};

use core_spec::{Dead, Entry};
use core_state::Frames;
use fleet_rows::Cause;
use json_tree::Bytes;
use queue_records::{dead_bytes, held_bytes, write_queue};
use record_spec::QueueRecord;
use retry_discard::Discards;
use std::alloc::{AllocError, Global};
use supersede_core::Pending;

/// The frame of a pending command.
fn held_frame(alloc: Global, entry: &Entry) -> Result<Bytes, AllocError>
    requires few { entry.now.attempts < 16 }
    requires fit { IsFit entry.now.command }
    ensures { IfOk result (λ b. (b ≡ queue_text (held entry.now)) × (queue_at (queue_text (held entry.now)) ≡ Some (held entry.now))) }
{
    let command = entry.command.command();
    let _version = command.version;
    held_bytes(alloc, entry.receipt, entry.attempts, command)
}

/// A law: the numbers of a cause fit their bytes. The function does nothing.
fn numbers_fit(cause: Cause)
    ensures { IsCause cause }
{
    let _ = cause;
}

/// The frame of a discarded command.
fn dead_frame(alloc: Global, given: &Dead) -> Result<Bytes, AllocError>
    requires fit { IsFit given.now.command }
    ensures { IfOk result (λ b. (b ≡ queue_text (dead given.now)) × (queue_at (queue_text (dead given.now)) ≡ Some (dead given.now))) }
{
    let command = given.command.command();
    let _version = command.version;
    numbers_fit(given.cause);
    dead_bytes(alloc, given.receipt, command, &given.cause)
}

/// Appends the frames of all pending commands, by receipt.
fn push_held(alloc: Global, pending: &Pending, frames: &mut Frames) -> Result<(), AllocError>
    requires few { NoneIsWornOut pending.now }
    requires fit { AllByRecursion (λ (e : Waiting). IsFit e.command) pending.now }
    ensures frames { OnOk result (frames.new ≡ frames.old ++ map queue_text (map held pending.now)) }
    ensures read { OnOk result (AreRead (map held pending.now)) }
{
    let count = pending.count() as usize;
    'writing: for i in 0..count {
        let frame = held_frame(alloc, pending.at(i))?;
        frames.push(frame)?;
    }
    Ok(())
}

/// Appends the frames of all discarded commands, by receipt.
fn push_dead(alloc: Global, discards: &Discards, frames: &mut Frames) -> Result<(), AllocError>
    requires fit { AllByRecursion (λ (d : Given). IsFit d.command) discards.now.list }
    ensures frames { OnOk result (frames.new ≡ frames.old ++ map queue_text (map dead discards.now.list)) }
    ensures read { OnOk result (AreRead (map dead discards.now.list)) }
{
    'writing: for i in 0..discards.count() {
        let frame = dead_frame(alloc, discards.at(i))?;
        frames.push(frame)?;
    }
    Ok(())
}

/// The frame of the last receipt.
fn base_frame(alloc: Global, last: u64) -> Result<Bytes, AllocError>
    ensures { IfOk result (λ b. (b ≡ queue_text (queue.Base last)) × (queue_at (queue_text (queue.Base last)) ≡ Some (queue.Base last))) }
{
    write_queue(alloc, &QueueRecord::Base(last))
}

/// The frames of a base with the last receipt, of each pending command, and of each discarded one.
pub(crate) fn queue_frames(
    alloc: Global,
    last: u64,
    pending: &Pending,
    discards: &Discards,
) -> Result<Frames, AllocError>
    requires few { NoneIsWornOut pending.now }
    requires fit { AllByRecursion (λ (e : Waiting). IsFit e.command) pending.now }
    requires dead { AllByRecursion (λ (d : Given). IsFit d.command) discards.now.list }
    ensures { IfOk result (λ frames. AreFramesOf frames (queue_records_of last pending.now discards.now.list)) }
{
    let mut frames = Frames::new(alloc);
    let base = base_frame(alloc, last)?;
    frames.push(base)?;
    push_held(alloc, pending, &mut frames)?;
    push_dead(alloc, discards, &mut frames)?;
    Ok(frames)
}
