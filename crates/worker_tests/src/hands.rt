//! Makes the calls of a hub one by one, as a worker does.
ghost use Rattle.std.specs.Prelude.{◌≡◌, ◌≤◌, length, IfOk};
ghost use Rattle.fleet_hub.specs.core_settles.Settles.{IsVerdictOf};
ghost use Rattle.fleet_hub.specs.core_state.Seen.{IsFit};
ghost use Rattle.fleet_hub.specs.Entries.{WasSubmitted};
ghost use Rattle.fleet_hub.specs.history_spec.Lawful.{HasStamp};

use crate::drains::counts;
use crate::gates::TestGate;
use crate::made::{MemoryCore, busy_core, facts};
use crate::said::says;
use command_decode::{DecodeFault, decode};
use fleet_hub::{
    AllCalls, Claimed, Hub, Job, Pass, Prepared, Settled, Submitted, Verdict, WorkEnd,
};
use fleet_keeper::LogKeeper;
use fleet_rows::Command;
use port_memory::MemoryDisk;
use std::alloc::{AllocError, Global};
use std::process::Abort;
use std::sync::Wait;
use turn_lock::SplitFault;

type MemoryHub = Hub<MemoryDisk, LogKeeper<MemoryDisk>, AllCalls>;

type MemoryPass = Pass<MemoryDisk, LogKeeper<MemoryDisk>, AllCalls>;

// What a worker says of a claimed command.
fn verdict_of(alloc: Global, job: &Job) -> Result<Verdict, AllocError>
    requires fit { IsFit job.now.command }
    ensures { IfOk result (λ v. IsVerdictOf v job.now.command) }
{
    match decode(alloc, job.command.command()) {
        Ok(change) => Ok(Verdict::Change(Prepared::of(alloc, job, change)?)),
        Err(DecodeFault::Refused(refusal)) => Ok(Verdict::Refused(refusal)),
        Err(DecodeFault::Memory) => Err(AllocError),
    }
}

// Whether a command isn't settled any more, by what it decodes to.
fn is_not_claimed<W: Wait>(
    rt: &W,
    alloc: Global,
    hub: &MemoryHub,
    pass: &mut MemoryPass,
    job: Job,
) -> bool
    requires pass { pass.old.lock ≡ hub.now.lock }
    requires submitted { WasSubmitted job.receipt job.command pass.old.seen }
    requires fit { IsFit job.command }
    ensures pass { (pass.new.lock ≡ pass.old.lock) × (pass.new.spares ≡ pass.old.spares) }
{
    match verdict_of(alloc, &job) {
        Ok(verdict) => {
            let settled = hub.settle(rt, pass, job, verdict);
            let late = matches!(settled, Settled::NotClaimed);
            drop(settled);
            late
        }
        Err(_) => {
            drop(job);
            false
        }
    }
}

// Whether a command that was claimed and released can't be settled any more.
fn is_late<W: Wait>(rt: &W, alloc: Global, hub: &MemoryHub, pass: &mut MemoryPass) -> bool
    requires pass { pass.old.lock ≡ hub.now.lock }
    ensures pass { (pass.new.lock ≡ pass.old.lock) × (pass.new.spares ≡ pass.old.spares) }
{
    match hub.claim(rt, pass) {
        Claimed::Job(job) => match job.command.share() {
            Ok(command) => {
                let released = Job {
                    receipt: job.receipt,
                    command,
                };
                hub.release(rt, pass, released);
                is_not_claimed(rt, alloc, hub, pass, job)
            }
            Err(_) => {
                drop(job);
                false
            }
        },
        _ => false,
    }
}

// Whether the command comes in as the first.
fn comes_first<W: Wait>(rt: &W, hub: &MemoryHub, pass: &mut MemoryPass, command: Command) -> bool
    requires pass { pass.old.lock ≡ hub.now.lock }
    requires sized { length command.payload ≤ 16_777_216 }
    requires received { HasStamp command.received }
    ensures pass { (pass.new.lock ≡ pass.old.lock) × (pass.new.spares ≡ pass.old.spares) }
{
    let came = hub.submit(rt, pass, command);
    let first = matches!(came, Submitted::Receipt(1));
    drop(came);
    first
}

// The core that a hub gives back, and whether a command came in, was claimed and released, was left for
// want of memory and was settled.
fn by_hand<R: Wait + Abort>(
    rt: &R,
    alloc: Global,
    core: MemoryCore,
    command: Command,
) -> (MemoryCore, [bool; 4])
    requires sized { length command.payload ≤ 16_777_216 }
    requires received { HasStamp command.received }
{
    match Hub::new(alloc, core, 2) {
        Ok((hub, mut pass)) => {
            let hub: MemoryHub = hub;
            let mut other = hub.split(&mut pass).expect(rt, "there is a spare");
            assert!(rt; matches!(hub.split(&mut pass), Err(SplitFault::NoSeat)));
            let first = comes_first(rt, &hub, &mut pass, command);
            let late = is_late(rt, alloc, &hub, &mut other);
            let gate = TestGate::new(false, 1);
            let poor = matches!(hub.work(rt, alloc, &mut pass, &gate, 0), WorkEnd::Memory);
            let done = matches!(hub.work(rt, alloc, &mut other, &gate, 1), WorkEnd::Done);
            hub.join(&mut pass, other);
            (hub.close(pass), [first, late, poor, done])
        }
        Err((core, _)) => {
            drop(command);
            (core, [false; 4])
        }
    }
}

// What came of it, and how many commands came in, were applied, superseded and discarded.
fn told_by_hand<R: Wait + Abort>(
    rt: &R,
    alloc: Global,
) -> Result<([bool; 4], [u64; 4]), AllocError> {
    match busy_core(alloc, (0, 0), 0, 0)? {
        Some(core) => match facts(alloc, 0, 10) {
            Ok(command) => {
                let (core, told) = by_hand(rt, alloc, core, command);
                let counts = counts(&core);
                drop(core);
                Ok((told, counts))
            }
            Err(fault) => {
                drop(core);
                Err(fault)
            }
        },
        None => Err(AllocError),
    }
}

#[test]
fn a_hub_takes_a_command_in_and_hands_it_out_until_it_is_settled(
    rt: HostRuntime,
) -> Result<(), AllocError> {
    let told = told_by_hand(&rt, rt.alloc())?;
    says(
        &rt,
        rt.alloc(),
        told,
        "([true, true, true, true], [1, 1, 0, 0])",
    )
}
