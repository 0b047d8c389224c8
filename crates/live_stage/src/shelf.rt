//! Keeps the newest events of the live trace, so that a look takes these along and copies no tables.
ghost use Rattle.std.specs.Prelude.{◌≡◌, ◌++◌, ◌∷◌, [], ◌+◌, drop, length, Ok, IfOk, IfSome, OnOk, OnErr};
ghost use Rattle.std.specs.List.{AllByRecursion};
ghost use Rattle.core_ends.specs.core_settles.Settles.{IsVerdictOf};
ghost use Rattle.core_ends.specs.core_spec.Commands.{answer_of};
ghost use Rattle.core_ends.specs.core_state.Seen.{IsFit};
ghost use Rattle.core_ends.specs.history_spec.Lawful.{HasStamp};
ghost use Rattle.live_stage.specs.Shelf.{HasChange, IsLawfulStep, KeepsNewest, StepMakes, FirstMakes, GoesOn, ShelvedBy, SweptBy};

use command_decode::{DecodeFault, decode};
use core_ends::{Job, Settled, Swept, Verdict};
use fleet_rows::{Command, Kinds, Shared};
use fleet_tables::{Prepared, Tables};
use stamp_time::Moment;
use std::alloc::{AllocError, Global};
use std::collections::VecDeque;
use std::marker::Model;
use ttl_sweeps::sweep;

// A shelf keeps no more payloads and no more steps than these.
const MOST_BYTES: u64 = 67_108_864;

const MOST_STEPS: usize = 65_536;

/// An event of the live trace, as it is applied to tables.
#[derive(Drop)]
pub enum Step {
    /// A command was applied, under its receipt.
    Applied(u64, Shared),
    /// The tables were swept.
    Swept(Kinds, Moment),
}

impl Step {
    // The bytes that it holds in memory.
    fn bytes(&self) -> u64 {
        match self {
            Step::Applied(_, command) => command.command().payload.as_slice().len() as u64,
            Step::Swept(_, _) => 0,
        }
    }

    // Its payload is shared.
    fn share(&self) -> Result<Step, AllocError>
        ensures { IfOk result (λ step. step ≡ self.now) }
    {
        match self {
            Step::Applied(receipt, command) => Ok(Step::Applied(*receipt, command.share()?)),
            Step::Swept(kinds, m) => Ok(Step::Swept(*kinds, *m)),
        }
    }
}

/// The step that a settle with this verdict makes, where it applies the command.
pub(crate) fn step_of(job: &Job, verdict: &Verdict) -> Option<Step>
    requires fit { IsFit job.now.command }
    requires decodes { IsVerdictOf verdict.now job.now.command }
    ensures step { IfSome result (λ s. s ≡ Step.Applied job.now.receipt job.now.command) }
    ensures lawful { IfSome result IsLawfulStep }
{
    match verdict {
        Verdict::Change(_) => match job.command.share() {
            Ok(command) => Some(Step::Applied(job.receipt, command)),
            Err(_) => None,
        },
        Verdict::Refused(_) => None,
    }
}

/// The newest steps of the live trace, oldest first.
#[derive(Drop)]
pub(crate) struct Shelf {
    steps: VecDeque<Step>,
    bytes: u64,
}

impl Model for Shelf {
    ghost use Rattle.std.specs.Prelude.{List};
    ghost use Rattle.std.specs.List.{AllByRecursion};
    ghost use Rattle.std.specs.Coded.{codes};
    ghost use Rattle.live_stage.specs.Shelf.{IsLawfulStep};
    ghost use Rattle.live_stage.specs.declared.shelf.Step.{Step};

    ghost Value = { List Step };

    ghost coded = { Prim.hlevel codes };

    ghost view = { λ s. s.steps.items };

    ghost invariant = { λ s. AllByRecursion IsLawfulStep s.steps.items };
}

impl Shelf {
    pub(crate) fn new(alloc: Global) -> Shelf
        ensures { result ≡ [] }
    {
        Shelf {
            steps: VecDeque::new(alloc),
            bytes: 0,
        }
    }

    /// Keeps one step more, and forgets the oldest ones where there is no room for all.
    pub(crate) fn put(&mut self, step: Step)
        requires { IsLawfulStep step }
        ensures { KeepsNewest (self.old ++ step ∷ []) self.new }
    {
        let bytes = self.bytes.saturating_add(step.bytes());
        push(&mut self.steps, step);
        self.bytes = forget_oldest(&mut self.steps, bytes);
    }

    /// Forgets all.
    pub(crate) fn clear(&mut self)
        ensures { self.new ≡ [] }
    {
        self.steps.clear();
        self.bytes = 0;
    }

    /// What a settle leaves.
    pub(crate) fn after_settle(&mut self, settled: &Settled, step: Option<Step>)
        requires { IfSome step IsLawfulStep }
        ensures { ShelvedBy settled.now step self.old self.new }
    {
        match settled {
            Settled::Applied => match step {
                Some(step) => self.put(step),
                None => self.clear(),
            },
            Settled::QueueFault => {
                drop(step);
                self.clear();
            }
            _ => drop(step),
        }
    }

    /// What a sweep leaves.
    pub(crate) fn after_sweep(&mut self, swept: &Swept, kinds: Kinds, m: Moment)
        requires { HasStamp m }
        ensures { SweptBy swept.now (Step.Swept kinds m) self.old self.new }
    {
        match swept {
            Swept::Ok => self.put(Step::Swept(kinds, m)),
            _ => {}
        }
    }

    /// How many steps there are.
    pub(crate) fn len(&self) -> usize
        ensures { result ≡ length self.now }
    {
        self.steps.len()
    }

    /// Those of another list, and then those of the shelf from this place on. They share their payloads.
    pub(crate) fn behind(
        &self,
        alloc: Global,
        first: &VecDeque<Step>,
        from: usize,
    ) -> Result<VecDeque<Step>, AllocError>
        requires { AllByRecursion IsLawfulStep first.now.items }
        ensures steps { IfOk result (λ steps. steps.items ≡ first.now.items ++ drop from self.now) }
        ensures lawful { IfOk result (λ steps. AllByRecursion IsLawfulStep steps.items) }
    {
        let mut steps = VecDeque::new(alloc);
        share_onto(&mut steps, first, 0)?;
        share_onto(&mut steps, &self.steps, from)?;
        Ok(steps)
    }
}

// Without memory all are forgotten.
fn push(steps: &mut VecDeque<Step>, step: Step)
    ensures { KeepsNewest (steps.old.items ++ step ∷ []) steps.new.items }
{
    match steps.push_back(step) {
        Ok(()) => {}
        Err(failed) => {
            drop(failed);
            steps.clear();
        }
    }
}

// Forgets steps from the oldest on, until they are few enough. Answers how many bytes are left.
fn forget_oldest(steps: &mut VecDeque<Step>, bytes: u64) -> u64
    ensures { KeepsNewest steps.old.items steps.new.items }
{
    let mut bytes = bytes;
    'oldest: for _ in 0..steps.len() {
        if bytes <= MOST_BYTES && steps.len() <= MOST_STEPS {
            break;
        }
        bytes = bytes.saturating_sub(forget_one(steps));
    }
    bytes
}

// Forgets the oldest step, if there is one. Answers how many bytes it had.
fn forget_one(steps: &mut VecDeque<Step>) -> u64
    ensures { KeepsNewest steps.old.items steps.new.items }
{
    match steps.pop_front() {
        Some(step) => {
            let bytes = step.bytes();
            drop(step);
            bytes
        }
        None => 0,
    }
}

// Puts the steps from this place on behind others.
fn share_onto(
    steps: &mut VecDeque<Step>,
    from: &VecDeque<Step>,
    at: usize,
) -> Result<(), AllocError>
    ensures { OnOk result (steps.new.items ≡ steps.old.items ++ drop at from.now.items) }
{
    steps.reserve(from.len().saturating_sub(at))?;
    'sharing: for i in at..from.len() {
        share_one(steps, from, i)?;
    }
    Ok(())
}

// Puts the step at this place behind others.
fn share_one(steps: &mut VecDeque<Step>, from: &VecDeque<Step>, at: usize) -> Result<(), AllocError>
    ensures { OnOk result (steps.new.items ++ drop (at + 1) from.now.items ≡ steps.old.items ++ drop at from.now.items) }
{
    match from.get(at) {
        Some(step) => put_behind(steps, step.share()?),
        None => Ok(()),
    }
}

fn put_behind(steps: &mut VecDeque<Step>, step: Step) -> Result<(), AllocError>
    ensures { OnOk result (steps.new.items ≡ steps.old.items ++ step ∷ []) }
{
    match steps.push_back(step) {
        Ok(()) => Ok(()),
        Err(failed) => {
            drop(failed);
            Err(AllocError)
        }
    }
}

/// Applies the steps, oldest first. Without memory those that are left stay behind the tables.
pub(crate) fn apply_all(
    alloc: Global,
    tables: &mut Tables,
    steps: &mut VecDeque<Step>,
) -> Result<(), AllocError>
    requires lawful { AllByRecursion IsLawfulStep steps.old.items }
    ensures lawful { AllByRecursion IsLawfulStep steps.new.items }
    ensures ok { OnOk result (steps.new.items ≡ []) }
    ensures lifetimes { tables.new.ttls ≡ tables.old.ttls }
    ensures goes_on { GoesOn tables.old steps.old.items tables.new steps.new.items }
{
    'applying: while !steps.is_empty() {
        apply_first(alloc, tables, steps)?;
        drop(steps.pop_front());
    }
    Ok(())
}

// Applies the first step, if there is one.
fn apply_first(alloc: Global, tables: &mut Tables, steps: &VecDeque<Step>) -> Result<(), AllocError>
    requires { AllByRecursion IsLawfulStep steps.now.items }
    ensures ok { OnOk result (FirstMakes steps.now.items tables.old tables.new) }
    ensures lifetimes { tables.new.ttls ≡ tables.old.ttls }
    ensures err { OnErr result (tables.new ≡ tables.old) }
{
    match steps.front() {
        Some(step) => apply_step(alloc, tables, step),
        None => Ok(()),
    }
}

fn apply_step(alloc: Global, tables: &mut Tables, step: &Step) -> Result<(), AllocError>
    requires { IsLawfulStep step.now }
    ensures ok { OnOk result (StepMakes step.now tables.old tables.new) }
    ensures lifetimes { tables.new.ttls ≡ tables.old.ttls }
    ensures err { OnErr result (tables.new ≡ tables.old) }
{
    match step {
        Step::Applied(receipt, command) => {
            apply_command(alloc, tables, *receipt, command.command())
        }
        Step::Swept(kinds, m) => {
            sweep(tables, *kinds, *m);
            Ok(())
        }
    }
}

// Decodes the command, and applies its change.
fn apply_command(
    alloc: Global,
    tables: &mut Tables,
    receipt: u64,
    command: &Command,
) -> Result<(), AllocError>
    requires fit { IsFit command.now }
    requires change { HasChange command.now }
    ensures ok { OnOk result (StepMakes (Step.Applied receipt command.now) tables.old tables.new) }
    ensures lifetimes { tables.new.ttls ≡ tables.old.ttls }
    ensures err { OnErr result (tables.new ≡ tables.old) }
{
    let prepared = prepared_of(alloc, command)?;
    match tables.reserve_prepared(prepared) {
        Ok((change, room)) => {
            tables.apply(room, receipt, Some(command.received), change);
            Ok(())
        }
        Err(prepared) => {
            drop(prepared);
            Err(AllocError)
        }
    }
}

fn prepared_of(alloc: Global, command: &Command) -> Result<Prepared, AllocError>
    requires fit { IsFit command.now }
    requires change { HasChange command.now }
    ensures { IfOk result (λ prepared. answer_of command.now ≡ Ok prepared) }
{
    match decode(alloc, command) {
        Ok(change) => Prepared::of(alloc, change),
        Err(DecodeFault::Memory) => Err(AllocError),
        Err(DecodeFault::Refused(_)) => unreachable!(),
    }
}
