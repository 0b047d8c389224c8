//! Takes one step of a claim: it supersedes a command, or answers.
ghost use Rattle.std.specs.Prelude.{◌≡◌, IsTrue};
ghost use Rattle.core_state.specs.record_spec.declared.queue.QueueRecord.TheVariants as queue;
ghost use Rattle.core_state.specs.record_spec.Queue.{queue_text};
ghost use Rattle.core_state.specs.supersede_core.Waiting.{is_queued};
ghost use Rattle.core_state.specs.queue_log.Queued.{QueueIsUp};
ghost use Rattle.core_claims.specs.Turns.{refused_as, NothingGives, DoesSupersede, BeginDoes, DoesTurn};

use crate::answers::Claimed;
use crate::choice::{Choice, choose};
use crate::job::Job;
use core_spec::Event;
use core_state::{CoreState, Keeper, Kept, put_record, take_out};
use fleet_ports::Disk;
use supersede_core::Pending;

/// The record of a superseded command.
fn superseded_bytes(receipt: u64, by: u64) -> [u8; 17]
    ensures { result ≡ queue_text (queue.Superseded receipt by) }
{
    let mut bytes = [5; 17];
    bytes[1..9].copy_from_slice(&receipt.to_le_bytes());
    bytes[9..].copy_from_slice(&by.to_le_bytes());
    bytes
}

/// The answer of a claim that couldn't write the record of a superseded command.
fn refused(answer: Kept) -> Claimed
    ensures { result ≡ refused_as answer }
{
    match answer {
        Kept::Memory => Claimed::Memory,
        Kept::Spent => Claimed::Spent,
        _ => Claimed::QueueFault,
    }
}

/// The answer of a claim if there is no candidate.
fn nothing(pending: &Pending) -> Claimed
    ensures { NothingGives result pending.now }
{
    if pending.count() == 0 {
        Claimed::Done
    } else {
        Claimed::Rest
    }
}

/// Writes the record of a superseded command, and drops its entry.
fn supersede<D: Disk + Drop, K: Keeper + Drop>(
    core: &mut CoreState<D, K>,
    receipt: u64,
    newer: u64,
) -> Option<Claimed>
    requires up { QueueIsUp D.seen D.may_leave core.old.queue }
    requires queued { IsTrue (is_queued receipt core.old.pending) }
    ensures does { DoesSupersede D.Disk result receipt newer core.old core.new }
{
    let waiting = core.pending.count() as usize;
    if core.events.reserve(waiting + 1).is_err() {
        return Some(Claimed::Memory);
    }
    let frame = superseded_bytes(receipt, newer);
    let answer = put_record(&mut core.queue, core.alloc, &frame);
    if answer != Kept::Ok {
        return Some(refused(answer));
    }
    take_out(&mut core.pending, receipt);
    core.events.note(Event::Supersede(receipt, newer));
    None
}

/// Claims an entry, and makes room for its release.
fn begin<D: Disk + Drop, K: Keeper + Drop>(core: &mut CoreState<D, K>, job: Job) -> Claimed
    requires queued { IsTrue (is_queued job.receipt core.old.pending) }
    ensures does { BeginDoes result job core.old core.new }
{
    let waiting = core.pending.count() as usize;
    if core.events.reserve(waiting + 1).is_err() {
        return Claimed::Memory;
    }
    core.pending.mark(job.receipt);
    core.events.note(Event::Claim(job.receipt));
    Claimed::Job(job)
}

/// One step: the answer, or None if a command was superseded.
pub(crate) fn turn<D: Disk + Drop, K: Keeper + Drop>(core: &mut CoreState<D, K>) -> Option<Claimed>
    requires up { QueueIsUp D.seen D.may_leave core.old.queue }
    ensures does { DoesTurn D.Disk result core.old core.new }
{
    match choose(&core.pending, &core.tables) {
        Choice::Nothing => Some(nothing(&core.pending)),
        Choice::Older(receipt, newer) => supersede(core, receipt, newer),
        Choice::Free(job) => Some(begin(core, job)),
        Choice::Memory => Some(Claimed::Memory),
    }
}
