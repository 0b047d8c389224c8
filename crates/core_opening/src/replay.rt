//! Replays a record of the queue's log on the pending and the discarded commands.
ghost use Rattle.std.specs.Prelude.{◌≡◌, ◌<◌, ◌++◌, ◌∷◌, [], length, flat_map, IsTrue, OnOk, None};
ghost use Rattle.core_state.specs.core_spec.Pending.{NoneIsWornOut};
ghost use Rattle.core_state.specs.core_machine.Claims.{attempts_of};
ghost use Rattle.core_state.specs.core_machine.Steps.{at_receipt, failed};
ghost use Rattle.core_state.specs.core_laws.Replay.{dead_by, at_entry, given_up, if_few, if_worn_out, last_by};
ghost use Rattle.core_state.specs.supersede_core.Waiting.{AreBelow, stands, queued_entry};
ghost use Rattle.core_opening.specs.Replayed.{MayReplay, AreQueuedOnly, FailAlike, bare_by};
ghost use Rattle.fleet_rows.specs.Limits.{most_pending};

use core_spec::Dead;
use fleet_rows::{Cause, Shared};
use record_spec::QueueRecord;
use retry_discard::{Discards, is_last};
use std::alloc::AllocError;
use supersede_core::Pending;

/// Adds a pending command with this number of failures. Its payload isn't read for a group.
fn add(
    pending: &mut Pending,
    receipt: u64,
    attempts: u32,
    command: &Shared,
) -> Result<(), AllocError>
    requires above { AreBelow receipt pending.old }
    requires attempts { attempts < 16 }
    requires room { length pending.old < most_pending }
    ensures { OnOk result (pending.new ≡ pending.old ++ queued_entry receipt command.now None attempts ∷ []) }
{
    let command = command.share()?;
    pending.add(receipt, command, None, attempts)?;
    Ok(())
}

/// Discards a pending command.
fn give_up(
    pending: &mut Pending,
    discards: &mut Discards,
    receipt: u64,
    cause: Cause,
) -> Result<(), AllocError>
    requires there { IsTrue (stands receipt pending.old) }
    ensures pending { OnOk result (pending.new ≡ flat_map (at_receipt receipt (λ e. [])) pending.old) }
    ensures discards { OnOk result (discards.new.list ≡ at_entry receipt (given_up cause) pending.old discards.old.list) }
{
    discards.reserve()?;
    let entry = pending.take(receipt);
    discards.put(Dead {
        receipt: entry.receipt,
        command: entry.command,
        cause,
    });
    Ok(())
}

/// The number of times that the store failed at the command.
fn attempts_in(pending: &Pending, receipt: u64) -> u32
    requires { IsTrue (stands receipt pending.now) }
    ensures { result ≡ attempts_of receipt pending.now }
{
    match pending.entry(receipt) {
        Some(entry) => entry.attempts,
        None => 0,
    }
}

/// Counts one more failure. The sixteenth discards the command.
fn fail(pending: &mut Pending, discards: &mut Discards, receipt: u64) -> Result<(), AllocError>
    requires there { IsTrue (stands receipt pending.old) }
    requires few { NoneIsWornOut pending.old }
    requires queued { AreQueuedOnly pending.old }
    requires alike { FailAlike receipt pending.old }
    ensures pending { OnOk result (pending.new ≡ flat_map (at_receipt receipt (λ e. if_few (failed e))) pending.old) }
    ensures discards { OnOk result (discards.new.list ≡ at_entry receipt if_worn_out pending.old discards.old.list) }
{
    if is_last(attempts_in(pending, receipt)) {
        give_up(pending, discards, receipt, Cause::Failures)?;
        return Ok(());
    }
    pending.count_failure(receipt);
    Ok(())
}

/// Replays the record.
pub(crate) fn replay(
    rec: &QueueRecord,
    pending: &mut Pending,
    discards: &mut Discards,
) -> Result<(), AllocError>
    requires { MayReplay rec.now pending.old }
    ensures pending { OnOk result (pending.new ≡ bare_by rec.now pending.old) }
    ensures discards { OnOk result (discards.new.list ≡ dead_by rec.now pending.old discards.old.list) }
{
    match rec {
        QueueRecord::Base(_) => {}
        QueueRecord::Held(receipt, attempts, command) => {
            add(pending, *receipt, *attempts, command)?
        }
        QueueRecord::Dead(receipt, command, cause) => {
            let command = command.share()?;
            discards.reserve()?;
            discards.put(Dead {
                receipt: *receipt,
                command,
                cause: *cause,
            });
        }
        QueueRecord::Submit(receipt, command) => add(pending, *receipt, 0, command)?,
        QueueRecord::Done(receipt) => {
            let _entry = pending.take(*receipt);
        }
        QueueRecord::Superseded(receipt, _) => {
            let _entry = pending.take(*receipt);
        }
        QueueRecord::Refused(receipt, refusal) => {
            give_up(pending, discards, *receipt, Cause::Refused(*refusal))?
        }
        QueueRecord::Fail(receipt, _, _) => fail(pending, discards, *receipt)?,
    }
    Ok(())
}

/// The last receipt after the record.
pub(crate) fn last_with(rec: &QueueRecord, last: u64) -> u64
    ensures { result ≡ last_by rec.now last }
{
    match rec {
        QueueRecord::Base(receipt) => *receipt,
        QueueRecord::Submit(receipt, _) => *receipt,
        _ => last,
    }
}
