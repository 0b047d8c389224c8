//! The core under the lock, and its calls.
//!
//! The lock knows what it holds as a list: the core as it came under the lock, and then its events. The first entry ties the core
//! that comes out in the end to the core that went in. The invariant (`Follows` in `specs/Follows.antt`) says that the calls of
//! all passes lead from the one to the other, in any order.
//!
//! Each method is one call of the core, with that call's contract, clause for clause (`specs/Calls.antt`). Whoever adds a method
//! must add a lemma to `proofs/Steps.antt`, which shows that it is a step of such calls.
ghost use Rattle.std.specs.Prelude.{◌≡◌, ◌≤◌, false, length};
ghost use mathlib.Core.List.{IsPrefix};
ghost use Rattle.core_ends.specs.history_spec.Lawful.{HasStamp};
ghost use Rattle.core_ends.specs.core_state.Seen.{IsFit};
ghost use Rattle.core_ends.specs.core_settles.Settles.{IsVerdictOf};
ghost use Rattle.core_ends.specs.core_course.Sight.{sight_of};
ghost use Rattle.hub_calls.specs.Entries.{WasSubmitted};
ghost use Rattle.hub_calls.specs.Calls.{SubmitDoes, ClaimDoes, ReleaseDoes, SettleDoes, SweepDoes};
ghost use Rattle.hub_calls.specs.Follows.{Follows};
ghost use Rattle.hub_calls.specs.Seen.{HasJob, list_of};
ghost use Rattle.json_tree.specs.Limits.{most_payload};

use crate::entry::Entry;
use crate::purpose::Purpose;
use core_ends::{Claimed, Core, Job, Keeper, Settled, Submitted, Swept, Verdict};
use fleet_ports::Disk;
use fleet_rows::{Command, Kinds};
use stamp_time::Moment;
use std::marker::{Model, PhantomData};
use std::snapshot::Snapshot;
use turn_lock::Held;

/// A core, and how it came under the lock.
#[derive(Drop)]
pub struct Followed<D: Disk + Drop, K: Keeper + Drop, P: Purpose> {
    core: Core<D, K>,
    start: Snapshot<Core<D, K>>,
    purpose: PhantomData<P>,
}

impl<D: Disk + Drop, K: Keeper + Drop, P: Purpose> Model for Followed<D, K, P> {
    ghost use Rattle.std.specs.Coded.{codes};
    ghost use Rattle.std.proofs.Props.{props};
    ghost use Rattle.core_ends.specs.text_spec.JsonCode.{coded_json};
    ghost use Rattle.core_ends.specs.fleet_tables.Seen.{coded_table};
    ghost use Rattle.core_ends.specs.core_course.Sight.{sight_of};
    ghost use Rattle.hub_calls.specs.Follows.{Follows};
    ghost use Rattle.hub_calls.specs.Seen.{FollowedCore};

    ghost Value = { FollowedCore D K };

    ghost coded = { Prim.hlevel (codes, coded_json, coded_table (Prim.hlevel (codes, coded_json)) (Prim.hlevel (codes, props))) };

    ghost view = { λ f. record { start = f.start.value; core = f.core } };

    ghost invariant = { λ f. Follows (sight_of D.Disk K.Keeper) P.only_work f.start.value f.core };
}

impl<D: Disk + Drop, K: Keeper + Drop, P: Purpose> Held for Followed<D, K, P> {
    ghost use Rattle.hub_calls.specs.Seen.{list_of};

    type Entry = Entry<D, K>;

    ghost list = { list_of };

    fn count(&self) -> u64 {
        self.core.event_count().wrapping_add(1)
    }

    // A number that changes whenever a claim's answer may change: with the events, and when the core goes down, which may add
    // none.
    fn news(&self) -> u64 {
        self.core
            .event_count()
            .wrapping_mul(2)
            .wrapping_add(u64::from(self.core.is_down()))
    }
}

impl<D: Disk + Drop, K: Keeper + Drop, P: Purpose> Followed<D, K, P> {
    /// A core as it comes under the lock.
    pub fn new(core: Core<D, K>) -> Followed<D, K, P>
        ensures core { result.core ≡ core }
        ensures start { result.start ≡ core }
    {
        let start = Snapshot::of(&core);
        Followed {
            core,
            start,
            purpose: PhantomData,
        }
    }

    /// The core, with what its calls led to.
    pub fn into_core(self) -> Core<D, K>
        ensures core { result ≡ self.core }
        ensures follows { Follows (sight_of D.Disk K.Keeper) P.only_work self.start result }
    {
        let Followed {
            core,
            start: _,
            purpose: _,
        } = self;
        core
    }

    /// The core.
    pub fn core(&self) -> &Core<D, K>
        ensures core { result.now ≡ self.now.core }
    {
        &self.core
    }

    /// Claims a command. Stale candidates are superseded first.
    pub fn claim(&mut self) -> Claimed
        ensures does { ClaimDoes (sight_of D.Disk K.Keeper) result self.old.core self.new.core }
        ensures start { self.new.start ≡ self.old.start }
        ensures grows { IsPrefix (list_of self.old) (list_of self.new) }
        ensures job { HasJob result (list_of self.new) }
        ensures follows { Follows (sight_of D.Disk K.Keeper) P.only_work self.old.start self.old.core }
    {
        self.core.claim()
    }

    /// Queues a claimed command again.
    pub fn release(&mut self, job: Job)
        ensures does { ReleaseDoes (sight_of D.Disk K.Keeper) job self.old.core self.new.core }
        ensures start { self.new.start ≡ self.old.start }
        ensures grows { IsPrefix (list_of self.old) (list_of self.new) }
        ensures follows { Follows (sight_of D.Disk K.Keeper) P.only_work self.old.start self.old.core }
    {
        self.core.release(job);
    }

    /// Ends a claimed command by the worker's verdict.
    pub fn settle(&mut self, job: Job, verdict: Verdict) -> Settled
        requires submitted { WasSubmitted job.receipt job.command (list_of self.old) }
        requires fit { IsFit job.command }
        requires decodes { IsVerdictOf verdict job.command }
        ensures does { SettleDoes (sight_of D.Disk K.Keeper) K.generation result job verdict self.old.core self.new.core }
        ensures start { self.new.start ≡ self.old.start }
        ensures grows { IsPrefix (list_of self.old) (list_of self.new) }
        ensures follows { Follows (sight_of D.Disk K.Keeper) P.only_work self.old.start self.old.core }
    {
        self.core.settle(job, verdict)
    }

    /// Submits a command.
    pub fn submit(&mut self, command: Command) -> Submitted
        requires all { P.only_work ≡ false }
        requires payload { length command.payload ≤ most_payload }
        requires received { HasStamp command.received }
        ensures does { SubmitDoes (sight_of D.Disk K.Keeper) result command self.old.core self.new.core }
        ensures start { self.new.start ≡ self.old.start }
        ensures grows { IsPrefix (list_of self.old) (list_of self.new) }
        ensures follows { Follows (sight_of D.Disk K.Keeper) P.only_work self.old.start self.old.core }
    {
        self.core.submit(command)
    }

    /// Sweeps the tables at a moment.
    pub fn sweep(&mut self, kinds: Kinds, m: Moment) -> Swept
        requires all { P.only_work ≡ false }
        requires stamp { HasStamp m }
        ensures does { SweepDoes (sight_of D.Disk K.Keeper) K.generation result kinds m self.old.core self.new.core }
        ensures start { self.new.start ≡ self.old.start }
        ensures grows { IsPrefix (list_of self.old) (list_of self.new) }
        ensures follows { Follows (sight_of D.Disk K.Keeper) P.only_work self.old.start self.old.core }
    {
        self.core.sweep(kinds, m)
    }
}
