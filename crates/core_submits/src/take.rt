//! Writes and holds a command that is within the limits.
ghost use Rattle.std.specs.Prelude.{◌≡◌, ◌<◌, ◌+◌, ◌^◌, length};
ghost use Rattle.core_state.specs.fleet_rows.declared.command.Command.{Command};
ghost use Rattle.core_state.specs.record_spec.Queue.{IsCommand};
ghost use Rattle.core_state.specs.queue_log.Queued.{QueueIsUp};
ghost use Rattle.core_state.specs.Seen.{CoreIsSound};
ghost use Rattle.core_submits.specs.ReadyCommand.{IsReadyCommand};
ghost use Rattle.core_submits.specs.Submits.{refused_as, DoesTake};
ghost use Rattle.fleet_rows.specs.Limits.{most_pending};

use crate::prepare::ReadyCommand;
use core_spec::Event;
use core_state::{CoreState, Keeper, Kept, put_record, take_out};
use fleet_ports::Disk;
use fleet_rows::Submitted;

/// The answer of a submit whose record wasn't written.
fn refused(answer: Kept) -> Submitted
    ensures { result ≡ refused_as answer }
{
    match answer {
        Kept::Memory => Submitted::Memory,
        Kept::Spent => Submitted::Spent,
        _ => Submitted::QueueFault,
    }
}

/// Appends the command's record, and holds the command. If the record isn't written, nothing is held.
pub(crate) fn take_in<D: Disk + Drop, K: Keeper + Drop>(
    core: &mut CoreState<D, K>,
    prepared: ReadyCommand,
) -> Submitted
    requires up { QueueIsUp D.seen D.may_leave core.old.queue }
    requires sound { CoreIsSound D.Disk K.Keeper core.old }
    requires room { length core.old.pending < most_pending }
    requires last { core.old.last + 1 < 2 ^ 64 }
    requires next { prepared.receipt ≡ core.old.last + 1 }
    ensures takes { (c : Command) → IsCommand c → IsReadyCommand prepared (core.old.last + 1) c
        → DoesTake D.Disk result c core.old core.new }
{
    let ReadyCommand {
        receipt,
        group,
        held,
        noted,
        frame,
    } = prepared;
    let waiting = core.pending.count() as usize;
    if core.events.reserve(waiting + 1).is_err() {
        return Submitted::Memory;
    }
    if core.pending.add(receipt, held, group, 0).is_err() {
        return Submitted::Memory;
    }
    let answer = put_record(&mut core.queue, core.alloc, frame.as_slice());
    if answer != Kept::Ok {
        take_out(&mut core.pending, receipt);
        return refused(answer);
    }
    core.events.note(Event::Submit(receipt, noted));
    core.last = receipt;
    Submitted::Receipt(receipt)
}
