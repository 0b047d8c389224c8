//! A core with its notes, and its calls.
//!
//! `Followed` of `hub_calls` is the core with what its calls lead to. The notes are a list that contracts alone read, so a refused
//! request takes no memory. Beside them stand the numbers of the sweeps and of the applied commands, so that the length of the live
//! trace is read at once. The newest events of the live trace stand on a shelf, from which threads bring their tables up to date.
ghost use Rattle.std.specs.Prelude.{◌≡◌, ◌+◌, ◌%◌, ◌^◌, ◌≤◌, ◌++◌, [], false, length, option_map};
ghost use Rattle.core_ends.specs.history_spec.Lawful.{HasStamp};
ghost use Rattle.core_ends.specs.core_settles.Settles.{IsVerdictOf};
ghost use Rattle.core_ends.specs.core_state.Seen.{events_of, IsFit};
ghost use Rattle.core_ends.specs.core_course.Sight.{sight_of};
ghost use Rattle.hub_calls.specs.Calls.{SubmitDoes, ClaimDoes, ReleaseDoes, SettleDoes, SweepDoes};
ghost use Rattle.hub_calls.specs.Entries.{WasSubmitted};
ghost use Rattle.hub_calls.specs.Follows.{Follows};
ghost use Rattle.json_tree.specs.Limits.{most_payload};
ghost use Rattle.live_stage.specs.Notes.{list_of, core_entries, notes_of, notes_in, told, with_note};
ghost use Rattle.live_stage.specs.Trace.{live_of, sweep_count, swept_number, applied_then};
ghost use Rattle.live_stage.specs.Causes.{AreNoted};
ghost use Rattle.live_stage.specs.StageCalls.{submit_note, sweep_note, submit_adds, sweep_adds, AddsWork, HasStageJob};

use crate::note::{Note, Refused, Staged};
use crate::shelf::{Shelf, step_of};
use core_ends::{Claimed, Core, Job, Keeper, Settled, Submitted, Swept, Verdict};
use fleet_ports::Disk;
use fleet_rows::{Command, Kinds};
use http_server::Log;
use hub_calls::{AllCalls, Followed};
use stamp_time::Moment;
use std::alloc::Global;
use std::marker::Model;
use std::snapshot::Snapshot;
use turn_lock::Held;

/// A core with its notes.
#[derive(Drop)]
pub struct Stage<D: Disk + Drop, K: Keeper + Drop> {
    pub(crate) followed: Followed<D, K, AllCalls>,
    // The notes, oldest first, beside a number that says nothing.
    notes: Log<Note, u8>,
    // The number of notes, of sweeps and of applied commands, each modulo 2^64.
    noted: u64,
    sweeps: u64,
    applied: u64,
    // The newest events of the live trace.
    pub(crate) shelf: Shelf,
}

impl<D: Disk + Drop, K: Keeper + Drop> Model for Stage<D, K> {
    ghost use Rattle.std.specs.Coded.{codes};
    ghost use Rattle.std.proofs.Props.{props};
    ghost use Rattle.core_ends.specs.text_spec.JsonCode.{coded_json};
    ghost use Rattle.core_ends.specs.fleet_tables.Seen.{coded_table};
    ghost use Rattle.core_ends.specs.core_course.Sight.{sight_of};
    ghost use Rattle.live_stage.specs.Notes.{StageView, notes_of};
    ghost use Rattle.live_stage.specs.Causes.{IsCounted};
    ghost use Rattle.live_stage.specs.Trace.{IsShelf};
    ghost use Rattle.std.specs.Prelude.{false};
    ghost use Rattle.hub_calls.specs.Follows.{Follows};

    ghost Value = { StageView D K };

    ghost coded = { Prim.hlevel (codes, coded_json, coded_table (Prim.hlevel (codes, coded_json)) (Prim.hlevel (codes, props))) };

    ghost view = { λ g. record { start = g.followed.start; core = g.followed.core; notes = notes_of g.notes.items } };

    ghost invariant = { λ g. IsCounted (sight_of D.Disk K.Keeper) g.noted g.sweeps g.applied
        (record { start = g.followed.start; core = g.followed.core; notes = notes_of g.notes.items })
        × IsShelf (sight_of D.Disk K.Keeper) g.followed.start g.followed.core g.shelf
        × Follows (sight_of D.Disk K.Keeper) false g.followed.start g.followed.core };
}

impl<D: Disk + Drop, K: Keeper + Drop> Held for Stage<D, K> {
    ghost use Rattle.live_stage.specs.Notes.{list_of};

    type Entry = Staged<D, K>;

    ghost list = { list_of };

    fn count(&self) -> u64 {
        self.followed.count().wrapping_add(self.noted)
    }

    // A note gives a worker nothing to do.
    fn news(&self) -> u64 {
        self.followed.news()
    }
}

// Notes why a call was refused, if it was, behind so many events.
fn note(
    notes: &mut Log<Note, u8>,
    noted: &mut u64,
    before: u64,
    refused: Option<Refused<Snapshot<Command>>>,
)
    ensures notes { notes_of notes.new.items ≡ with_note before (option_map told refused) (notes_of notes.old.items) }
    ensures noted { noted.new ≡ (noted.old + notes_in (option_map told refused)) % 2 ^ 64 }
{
    let count = *noted;
    let Some(what) = refused else {
        return;
    };
    *notes = notes.and(&Note { before, what }, &0);
    *noted = count.wrapping_add(1);
}

// Why a command was refused, if that is noted.
fn refused_submit(
    came: &Submitted,
    command: Snapshot<Command>,
) -> Option<Refused<Snapshot<Command>>>
    ensures { option_map told result ≡ submit_note came.now command.value }
{
    match came {
        Submitted::QueueFault => Some(Refused::QueueFault(command)),
        Submitted::Down => Some(Refused::QueueDown),
        Submitted::Receipt(_) | Submitted::Full | Submitted::Spent | Submitted::Memory => None,
    }
}

// Why a sweep was refused, if that is noted.
fn refused_sweep(came: &Swept, kinds: Kinds, m: Moment) -> Option<Refused<Snapshot<Command>>>
    ensures { option_map told result ≡ sweep_note came.now kinds m }
{
    match came {
        Swept::StoreFault => Some(Refused::StoreFault),
        Swept::StoreDown => Some(Refused::StoreDown(kinds, m)),
        Swept::Down => Some(Refused::CoreDown),
        Swept::Ok | Swept::Spent | Swept::Memory => None,
    }
}

// How many sweeps were done.
fn sweeps_in(came: &Swept) -> u64
    ensures { result ≡ swept_number came.now }
{
    match came {
        Swept::Ok => 1,
        Swept::StoreFault | Swept::StoreDown | Swept::Spent | Swept::Down | Swept::Memory => 0,
    }
}

// The number of applied commands after a settle. Where the queue failed, the command may be applied without its Done, so all are
// counted anew.
fn applied_after<D: Disk + Drop, K: Keeper + Drop>(
    settled: &Settled,
    applied: u64,
    core: &Core<D, K>,
) -> u64
    ensures { result ≡ applied_then settled.now applied (events_of core.now) }
{
    match settled {
        Settled::Applied => applied.wrapping_add(1),
        Settled::QueueFault => core.tally().applied,
        _ => applied,
    }
}

impl<D: Disk + Drop, K: Keeper + Drop> Stage<D, K> {
    /// A core as it comes under the lock, without notes. Its applied commands are counted once.
    pub fn new(alloc: Global, core: Core<D, K>) -> Stage<D, K>
        requires no_sweep { sweep_count (events_of core) ≡ 0 }
        ensures core { result.core ≡ core }
        ensures start { result.start ≡ core }
        ensures notes { result.notes ≡ [] }
    {
        let applied = core.tally().applied;
        Stage {
            followed: Followed::new(core),
            notes: Log::new(),
            noted: 0,
            sweeps: 0,
            applied,
            shelf: Shelf::new(alloc),
        }
    }

    /// The core, with what its calls led to, and the cause of each note.
    pub fn into_core(self) -> Core<D, K>
        ensures core { result ≡ self.core }
        ensures follows { Follows (sight_of D.Disk K.Keeper) false self.start result }
        ensures causes { AreNoted (sight_of D.Disk K.Keeper) self }
    {
        self.followed.into_core()
    }

    /// The core.
    pub fn core(&self) -> &Core<D, K>
        ensures { result.now ≡ self.now.core }
    {
        self.followed.core()
    }

    /// A law: calls led to the core, and each note has its cause. The call does nothing.
    pub fn is_followed(&self)
        ensures follows { Follows (sight_of D.Disk K.Keeper) false self.now.start self.now.core }
        ensures causes { AreNoted (sight_of D.Disk K.Keeper) self.now }
    {
        let _ = &self.shelf;
    }

    /// The length of the live trace.
    pub fn live(&self) -> u64
        ensures { result ≡ live_of self.now.core }
    {
        let _count = self.followed.core().event_count();
        self.applied.wrapping_add(self.sweeps)
    }

    /// Submits a command. A fault of the queue, or that the core is down, is noted.
    pub fn submit(&mut self, command: Command) -> Submitted
        requires payload { length command.payload ≤ most_payload }
        requires received { HasStamp command.received }
        ensures does { SubmitDoes (sight_of D.Disk K.Keeper) result command self.old.core self.new.core }
        ensures start { self.new.start ≡ self.old.start }
        ensures list { list_of self.new ≡ list_of self.old ++ submit_adds result command }
        ensures follows { Follows (sight_of D.Disk K.Keeper) false self.old.start self.old.core }
        ensures causes { AreNoted (sight_of D.Disk K.Keeper) self.new }
    {
        let before = self.followed.core().event_count();
        let told = Snapshot::of(&command);
        let came = self.followed.submit(command);
        note(
            &mut self.notes,
            &mut self.noted,
            before,
            refused_submit(&came, told),
        );
        came
    }

    /// Sweeps the tables. A fault of the store, or that the core is down, is noted.
    pub fn sweep(&mut self, kinds: Kinds, m: Moment) -> Swept
        requires stamp { HasStamp m }
        ensures does { SweepDoes (sight_of D.Disk K.Keeper) K.generation result kinds m self.old.core self.new.core }
        ensures start { self.new.start ≡ self.old.start }
        ensures list { list_of self.new ≡ list_of self.old ++ sweep_adds result kinds m }
        ensures follows { Follows (sight_of D.Disk K.Keeper) false self.old.start self.old.core }
        ensures causes { AreNoted (sight_of D.Disk K.Keeper) self.new }
    {
        let before = self.followed.core().event_count();
        let came = self.followed.sweep(kinds, m);
        self.sweeps = self.sweeps.wrapping_add(sweeps_in(&came));
        self.shelf.after_sweep(&came, kinds, m);
        note(
            &mut self.notes,
            &mut self.noted,
            before,
            refused_sweep(&came, kinds, m),
        );
        came
    }

    /// Claims a command. Stale candidates are superseded first.
    pub fn claim(&mut self) -> Claimed
        ensures does { ClaimDoes (sight_of D.Disk K.Keeper) result self.old.core self.new.core }
        ensures start { self.new.start ≡ self.old.start }
        ensures list { AddsWork self.old self.new }
        ensures job { HasStageJob result (list_of self.new) }
        ensures follows { Follows (sight_of D.Disk K.Keeper) false self.old.start self.old.core }
        ensures causes { AreNoted (sight_of D.Disk K.Keeper) self.new }
    {
        self.followed.claim()
    }

    /// Queues a claimed command again.
    pub fn release(&mut self, job: Job)
        ensures does { ReleaseDoes (sight_of D.Disk K.Keeper) job self.old.core self.new.core }
        ensures start { self.new.start ≡ self.old.start }
        ensures list { AddsWork self.old self.new }
        ensures follows { Follows (sight_of D.Disk K.Keeper) false self.old.start self.old.core }
        ensures causes { AreNoted (sight_of D.Disk K.Keeper) self.new }
    {
        self.followed.release(job);
    }

    /// Ends a claimed command by the worker's verdict.
    pub fn settle(&mut self, job: Job, verdict: Verdict) -> Settled
        requires submitted { WasSubmitted job.receipt job.command (core_entries (list_of self.old)) }
        requires fit { IsFit job.command }
        requires decodes { IsVerdictOf verdict job.command }
        ensures does { SettleDoes (sight_of D.Disk K.Keeper) K.generation result job verdict self.old.core self.new.core }
        ensures start { self.new.start ≡ self.old.start }
        ensures list { AddsWork self.old self.new }
        ensures follows { Follows (sight_of D.Disk K.Keeper) false self.old.start self.old.core }
        ensures causes { AreNoted (sight_of D.Disk K.Keeper) self.new }
    {
        let step = step_of(&job, &verdict);
        let settled = self.followed.settle(job, verdict);
        self.applied = applied_after(&settled, self.applied, self.followed.core());
        self.shelf.after_settle(&settled, step);
        settled
    }
}
