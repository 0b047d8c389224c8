//! Takes all the memory that a command needs, before its record is written.
ghost use Rattle.std.specs.Prelude.{◌≡◌, ◌≤◌, IfOk, true, false};
ghost use Rattle.core_state.specs.record_spec.Queue.{IsCommand};
ghost use Rattle.core_submits.specs.ReadyCommand.{IsReadyCommand};
ghost use Rattle.core_submits.specs.Submits.{IsFull};
ghost use Rattle.fleet_rows.specs.json_tree.Limits.{most_payload};

use command_key::json_tree::Bytes;
use command_key::key;
use fleet_rows::{Command, Group, MOST_PENDING, MOST_PENDING_BYTES, Shared};
use queue_records::submit_bytes;
use stamp_time::Moment;
use std::alloc::{AllocError, Global};
use supersede_core::Pending;

/// A command to be held, and its record in the queue's log.
#[derive(Drop)]
pub(crate) struct ReadyCommand {
    pub receipt: u64,
    pub group: Option<(Group, Moment)>,
    pub held: Shared,
    pub noted: Shared,
    pub frame: Bytes,
}

/// Takes the memory, and spells the record.
pub(crate) fn prepare(
    alloc: Global,
    receipt: u64,
    command: Command,
) -> Result<ReadyCommand, AllocError>
    requires { IsCommand command }
    ensures prepared { IfOk result (λ prepared. IsReadyCommand prepared receipt command) }
{
    let group = key(alloc, &command)?;
    let frame = submit_bytes(alloc, receipt, &command)?;
    let held = Shared::new(alloc, command)?;
    let noted = held.share()?;
    Ok(ReadyCommand {
        receipt,
        group,
        held,
        noted,
        frame,
    })
}

/// Whether the limit of pending commands, or that of their bytes, would be exceeded.
pub(crate) fn is_full(pending: &Pending, payload: usize) -> bool
    requires { payload ≤ most_payload }
    ensures full { result ≡ true → IsFull payload pending.now }
    ensures room { result ≡ false → IsFull payload pending.now → ⊥ }
{
    pending.count() >= MOST_PENDING || pending.size() > MOST_PENDING_BYTES - payload as u64
}
