//! Defines the hub and its calls, one hold each.
ghost use Rattle.std.specs.Prelude.{◌≡◌, ℕ, ◌+◌, ◌<◌, ◌≤◌, ◌++◌, ◌↔◌, [], false, length, Err, IfOk, IfErr, OnErr};
ghost use mathlib.Core.List.{IsPrefix};
ghost use Rattle.core_drain.specs.history_spec.Lawful.{HasStamp};
ghost use Rattle.core_drain.specs.core_state.Seen.{events_of, IsFit};
ghost use Rattle.core_drain.specs.core_settles.Settles.{IsVerdictOf};
ghost use Rattle.core_drain.specs.core_course.Sight.{sight_of};
ghost use Rattle.turn_lock.specs.Holds.{Apart, AppendAll, times_appended};
ghost use Rattle.turn_lock.specs.Seen.{LongerOf};
ghost use Rattle.turn_lock.specs.declared.lock.SplitFault.{SplitFault};
ghost use Rattle.hub_work.specs.hub_calls.Entries.{entries, WasSubmitted};
ghost use Rattle.hub_work.specs.hub_calls.Calls.{SubmitDoes, ClaimDoes, ReleaseDoes, SettleDoes, SweepDoes};
ghost use Rattle.hub_work.specs.hub_calls.Follows.{Follows};
ghost use Rattle.hub_work.specs.hub_calls.Seen.{ClosedFrom, HasJob, OneCall, SeenBy, list_of};
ghost use Rattle.json_tree.specs.Limits.{most_payload};

use core_drain::{Claimed, Core, Job, Keeper, Settled, Submitted, Swept, Verdict};
use fleet_ports::Disk;
use fleet_rows::{Command, Kinds};
use hub_work::{AllCalls, Followed, Pass, Purpose, claim, release, settle};
use stamp_time::Moment;
use std::alloc::{AllocError, Global};
use std::marker::Model;
use std::sync::Wait;
use turn_lock::{SplitFault, TurnLock};

/// A core that threads call in turns. Contracts see it as the lock over its core.
#[derive(Drop)]
pub struct Hub<D: Disk + Drop, K: Keeper + Drop, P: Purpose = AllCalls> {
    pub(crate) lock: TurnLock<Followed<D, K, P>>,
}

impl<D: Disk + Drop, K: Keeper + Drop, P: Purpose> Model for Hub<D, K, P> {
    ghost use Rattle.std.specs.Coded.{codes};
    ghost use Rattle.std.proofs.Props.{props};
    ghost use Rattle.core_drain.specs.text_spec.JsonCode.{coded_json};
    ghost use Rattle.core_drain.specs.fleet_tables.Seen.{coded_table};
    ghost use Rattle.turn_lock.specs.Seen.{LockView};
    ghost use Rattle.hub_work.specs.hub_calls.declared.entry.Entry.{Entry};

    ghost Value = { LockView (Entry D K) };

    ghost coded = { Prim.hlevel (codes, coded_json, coded_table (Prim.hlevel (codes, coded_json)) (Prim.hlevel (codes, props))) };

    ghost view = { λ h. h.lock };
}

impl<D: Disk + Drop, K: Keeper + Drop, P: Purpose> Hub<D, K, P> {
    /// A hub over the core, and its first pass, which has all seats but one as spares. There are at most 66 seats. Without memory
    /// the core comes back.
    pub fn new(
        alloc: Global,
        core: Core<D, K>,
        seats: u32,
    ) -> Result<(Hub<D, K, P>, Pass<D, K, P>), (Core<D, K>, AllocError)>
        requires some { 1 ≤ seats }
        requires few { seats ≤ 66 }
        ensures opening { IfOk result (λ p. p.0.opening ≡ entries core (events_of core)) }
        ensures seats { IfOk result (λ p. p.0.seats ≡ seats) }
        ensures pass { IfOk result (λ p. (p.1.lock ≡ p.0.lock) × (p.1.seen ≡ entries core (events_of core)) × (p.1.holds ≡ [])) }
        ensures spares { IfOk result (λ p. p.1.spares + 1 ≡ seats) }
        ensures err { IfErr result (λ e. e.0 ≡ core) }
    {
        match TurnLock::new(alloc, Followed::new(core), seats) {
            Ok((lock, pass)) => Ok((Hub { lock }, pass)),
            Err((followed, fault)) => Err((followed.into_core(), fault)),
        }
    }

    /// Claims a command, in one hold. Stale candidates are superseded first.
    pub fn claim<W: Wait>(&self, rt: &W, pass: &mut Pass<D, K, P>) -> Claimed
        requires pass { pass.old.lock ≡ self.now.lock }
        ensures pass { (pass.new.lock ≡ pass.old.lock) × (pass.new.spares ≡ pass.old.spares) × IsPrefix pass.old.seen pass.new.seen }
        ensures one_call { OneCall (sight_of D.Disk K.Keeper) P.only_work (λ w. ClaimDoes w result) pass.old pass.new }
        // The claimed command can be settled, whatever other passes do meanwhile.
        ensures job { HasJob result pass.new.seen }
    {
        claim(&self.lock, rt, pass)
    }

    /// Queues a claimed command again, in one hold.
    pub fn release<W: Wait>(&self, rt: &W, pass: &mut Pass<D, K, P>, job: Job)
        requires pass { pass.old.lock ≡ self.now.lock }
        ensures pass { (pass.new.lock ≡ pass.old.lock) × (pass.new.spares ≡ pass.old.spares) × IsPrefix pass.old.seen pass.new.seen }
        ensures one_call { OneCall (sight_of D.Disk K.Keeper) P.only_work (λ w. ReleaseDoes w job) pass.old pass.new }
    {
        release(&self.lock, rt, pass, job);
    }

    /// Ends a claimed command by the worker's verdict, in one hold. What the pass has seen shows that the command was submitted.
    pub fn settle<W: Wait>(
        &self,
        rt: &W,
        pass: &mut Pass<D, K, P>,
        job: Job,
        verdict: Verdict,
    ) -> Settled
        requires pass { pass.old.lock ≡ self.now.lock }
        requires submitted { WasSubmitted job.receipt job.command pass.old.seen }
        requires fit { IsFit job.command }
        requires decodes { IsVerdictOf verdict job.command }
        ensures pass { (pass.new.lock ≡ pass.old.lock) × (pass.new.spares ≡ pass.old.spares) × IsPrefix pass.old.seen pass.new.seen }
        ensures one_call { OneCall (sight_of D.Disk K.Keeper) P.only_work (λ w. SettleDoes w K.generation result job verdict) pass.old pass.new }
    {
        settle(&self.lock, rt, pass, job, verdict)
    }

    /// A new pass, which takes one of the spares. It has seen as much as this pass, and has no hold and no spare. Takes no
    /// memory.
    pub fn split(&self, pass: &mut Pass<D, K, P>) -> Result<Pass<D, K, P>, SplitFault>
        requires pass { pass.old.lock ≡ self.now.lock }
        ensures same { (pass.new.lock ≡ pass.old.lock) × (pass.new.seen ≡ pass.old.seen) × (pass.new.holds ≡ pass.old.holds) }
        ensures spare { IfOk result (λ p. pass.new.spares + 1 ≡ pass.old.spares) }
        ensures new { IfOk result (λ p. (p.lock ≡ pass.old.lock) × (p.seen ≡ pass.old.seen)
            × (p.holds ≡ []) × (p.spares ≡ 0)) }
        ensures no_seat { (result ≡ Err SplitFault.NoSeat) ↔ (pass.old.spares ≡ 0) }
        ensures no_memory { ¬ (result ≡ Err SplitFault.Memory) }
        ensures err { OnErr result (pass.new ≡ pass.old) }
    {
        self.lock.split(pass)
    }

    /// Takes back a pass, with its spares and its own seat. What one of the two has seen is a prefix of what the other has seen.
    /// No hold belongs to both. Takes no memory.
    pub fn join(&self, into: &mut Pass<D, K, P>, from: Pass<D, K, P>)
        requires into { into.old.lock ≡ self.now.lock }
        requires from { from.lock ≡ self.now.lock }
        ensures lock { into.new.lock ≡ into.old.lock }
        ensures spares { into.new.spares ≡ into.old.spares + from.spares + 1 }
        ensures seen { LongerOf into.old.seen from.seen into.new.seen }
        ensures apart { Apart into.old.holds from.holds }
        ensures holds { into.new.holds ≡ into.old.holds ++ from.holds }
    {
        self.lock.join(into, from);
    }

    /// Takes the core out, once all other passes were joined into this one. Takes no memory.
    pub fn close(self, pass: Pass<D, K, P>) -> Core<D, K>
        requires pass { pass.lock ≡ self.lock }
        requires all { pass.spares + 1 ≡ self.seats }
        // The calls of all passes lead from the core that the hub started with to this one.
        ensures follows { ClosedFrom (sight_of D.Disk K.Keeper) P.only_work self.opening result }
        ensures seen { SeenBy self.opening pass.seen result }

        // In the order of their numbers, the holds append all events since the start, each once.
        ensures holds { AppendAll (length self.opening) pass.holds (1 + length (events_of result)) }
        ensures each_once { (place : ℕ) → length self.opening ≤ place → place < 1 + length (events_of result)
            → times_appended place pass.holds ≡ 1 }
    {
        self.lock.close(pass).into_core()
    }

    /// Submits a command, in one hold. The hub must be one for all calls.
    pub fn submit<W: Wait>(&self, rt: &W, pass: &mut Pass<D, K, P>, command: Command) -> Submitted
        requires all { P.only_work ≡ false }
        requires pass { pass.old.lock ≡ self.now.lock }
        requires payload { length command.payload ≤ most_payload }
        requires received { HasStamp command.received }
        ensures pass { (pass.new.lock ≡ pass.old.lock) × (pass.new.spares ≡ pass.old.spares) × IsPrefix pass.old.seen pass.new.seen }
        ensures one_call { OneCall (sight_of D.Disk K.Keeper) P.only_work (λ w. SubmitDoes w result command) pass.old pass.new }
    {
        self.lock.hold(
            rt,
            pass,
            move |followed| -> Submitted
                requires { (P.only_work ≡ false) × (length command.payload ≤ most_payload) × HasStamp command.received }
                ensures does { SubmitDoes (sight_of D.Disk K.Keeper) result command followed.old.core followed.new.core }
                ensures start { followed.new.start ≡ followed.old.start }
                ensures grows { IsPrefix (list_of followed.old) (list_of followed.new) }
                ensures follows { Follows (sight_of D.Disk K.Keeper) P.only_work followed.old.start followed.old.core }
            { followed.submit(command) },
        )
    }

    /// Sweeps the tables at a moment, in one hold. The hub must be one for all calls.
    pub fn sweep<W: Wait>(&self, rt: &W, pass: &mut Pass<D, K, P>, kinds: Kinds, m: Moment) -> Swept
        requires all { P.only_work ≡ false }
        requires pass { pass.old.lock ≡ self.now.lock }
        requires stamp { HasStamp m }
        ensures pass { (pass.new.lock ≡ pass.old.lock) × (pass.new.spares ≡ pass.old.spares) × IsPrefix pass.old.seen pass.new.seen }
        ensures one_call { OneCall (sight_of D.Disk K.Keeper) P.only_work (λ w. SweepDoes w K.generation result kinds m) pass.old pass.new }
    {
        self.lock.hold(
            rt,
            pass,
            move |followed| -> Swept
                requires { (P.only_work ≡ false) × HasStamp m }
                ensures does { SweepDoes (sight_of D.Disk K.Keeper) K.generation result kinds m followed.old.core followed.new.core }
                ensures start { followed.new.start ≡ followed.old.start }
                ensures grows { IsPrefix (list_of followed.old) (list_of followed.new) }
                ensures follows { Follows (sight_of D.Disk K.Keeper) P.only_work followed.old.start followed.old.core }
            { followed.sweep(kinds, m) },
        )
    }
}
