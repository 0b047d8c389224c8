//! Implements a keeper in memory, which fails at the calls that a test names.
//!
//! It notes a step for each call that changed what a crash may leave, so contracts see the images at every moment
//! (`specs/Memory.antt`). Calls are numbered from 1. A keeping and a checkpoint are one call each, and so is the repair of a
//! failed one. A call fails exactly if its number is listed. If the next number is listed too, its repair fails and the keeper
//! goes down. A call that finds no memory or no room has no number.
ghost use Rattle.std.specs.Prelude.{◌≡◌, ◌⊎◌, ◌↔◌, ◌+◌, ◌^◌, ◌≤◌, ℕ, true, false, List, [], ◌∷◌, length, map, Option, Some, MatchResult};
ghost use Rattle.std.specs.List.{AllByRecursion};
ghost use Rattle.port_memory.specs.fleet_ports.Counts.{Counts, RoseBy};
ghost use Rattle.port_memory.specs.Calls.{is_listed};
ghost use Rattle.log_pair.specs.record_log.Lay.{Fits, laid_size};
ghost use Rattle.core_spec.specs.record_spec.declared.store.StoreRecord.{StoreRecord as Rec};
ghost use Rattle.core_spec.specs.record_spec.Store.{store_text, IsStoreRecord};
ghost use Rattle.fleet_keeper.specs.Added.{HasAdded};
ghost use Rattle.fleet_keeper.specs.Kept.{IsRefusal, IsFaulty};
ghost use Rattle.fleet_keeper.specs.Limits.{IsPast, ArePast};
ghost use Rattle.fleet_keeper.specs.Memory.{memory_records, memory_images, memory_moment, memory_since, memory_down, memory_size, memory_generation};
ghost use Rattle.fleet_keeper.specs.Memory.{memory_faults, steps_of, fails_of, calls_of, steps_after, IsUp, IsNumbered};
ghost use Rattle.fleet_keeper.specs.Records.{AllAre, IsOneOf, with_one};

use crate::frames::write_frames;
use crate::keeper::Keeper;
use crate::kept::Kept;
use crate::records::StoreRecords;
use crate::spelt::Spelt;
use crate::step::{Step, Steps};
use core_spec::record_spec::StoreRecord;
use log_pair::record_log::Frames;
use log_pair::record_log::log_spec::MOST_LOG;
use port_memory::Numbers;
use port_memory::json_tree::Bytes;
use std::alloc::Global;
use store_records::write_store;

/// A keeper in memory, which tells its content and its images at every moment.
#[derive(Drop)]
pub struct MemoryKeeper {
    pub(crate) steps: Steps,
    pub(crate) fail: Numbers,
    pub(crate) calls: u64,
    pub(crate) faults: u64,
    /// The bytes that a log of the records would have.
    pub(crate) size: u64,
    pub(crate) generation: u64,
    pub(crate) down: bool,
}

/// Records about to be kept: their spellings, and the bytes of the log with them.
#[derive(Drop)]
struct Room {
    frames: Frames,
    size: u64,
}

/// Spells a record for a log of this size. It refuses a record for which the log has no room.
fn room_for(alloc: Global, rec: &StoreRecord, size: u64) -> Result<Room, Kept>
    requires fits { IsStoreRecord rec.now }
    ensures found { MatchResult result
        (λ f. (f.frames ≡ store_text rec.now ∷ []) × (f.size ≡ size + 5 + length (store_text rec.now)) × (IsPast size (store_text rec.now) → ⊥))
        (λ answer. (answer ≡ Kept.Memory) ⊎ ((answer ≡ Kept.Spent) × IsPast size (store_text rec.now))) }
{
    match write_store(alloc, rec) {
        Ok(frame) => room_with(alloc, frame, size),
        Err(_) => Err(Kept::Memory),
    }
}

/// Takes a record that was spelt before, for a log of this size.
fn room_for_spelt(alloc: Global, rec: &Spelt, size: u64) -> Result<Room, Kept>
    ensures lawful { IsStoreRecord rec.now }
    ensures found { MatchResult result
        (λ f. (f.frames ≡ store_text rec.now ∷ []) × (f.size ≡ size + 5 + length (store_text rec.now)) × (IsPast size (store_text rec.now) → ⊥))
        (λ answer. (answer ≡ Kept.Memory) ⊎ ((answer ≡ Kept.Spent) × IsPast size (store_text rec.now))) }
{
    match Bytes::from_slice(alloc, rec.frame.as_slice()) {
        Ok(frame) => room_with(alloc, frame, size),
        Err(_) => Err(Kept::Memory),
    }
}

/// Takes a spelling for a log of this size.
fn room_with(alloc: Global, frame: Bytes, size: u64) -> Result<Room, Kept>
    ensures found { MatchResult result
        (λ f. (f.frames ≡ frame ∷ []) × (f.size ≡ size + 5 + length frame) × (IsPast size frame → ⊥))
        (λ answer. (answer ≡ Kept.Memory) ⊎ ((answer ≡ Kept.Spent) × IsPast size frame)) }
{
    let n = frame.as_slice().len() as u64;
    if n > u64::from(u32::MAX) || size > MOST_LOG || size + 5 + n > MOST_LOG {
        return Err(Kept::Spent);
    }
    let mut frames = Frames::new(alloc);
    if frames.push(frame).is_err() {
        return Err(Kept::Memory);
    }
    Ok(Room {
        frames,
        size: size + 5 + n,
    })
}

/// The bytes of a log of these frames.
fn size_with(frames: &[Bytes]) -> u64
    requires fits { Fits frames.now }
    ensures size { result ≡ laid_size frames.now }
{
    let mut size = 17u64;
    'adding: for frame in frames {
        size = size + 5 + frame.as_slice().len() as u64;
    }
    size
}

/// Spells records for a log of their own, after one of this generation.
fn room_for_all(alloc: Global, recs: &StoreRecords, generation: u64) -> Result<Room, Kept>
    requires fits { AllByRecursion IsStoreRecord recs.now }
    ensures found { MatchResult result
        (λ f. (f.frames ≡ map store_text recs.now) × (f.size ≡ laid_size (map store_text recs.now)) × (ArePast generation (map store_text recs.now) → ⊥))
        (λ answer. (answer ≡ Kept.Memory) ⊎ ((answer ≡ Kept.Spent) × ArePast generation (map store_text recs.now))) }
{
    let Ok(frames) = write_frames(alloc, recs.as_slice()) else {
        return Err(Kept::Memory);
    };
    if generation == u64::MAX || !frames.fit() {
        return Err(Kept::Spent);
    }
    let size = size_with(frames.as_slice());
    Ok(Room { frames, size })
}

/// Whether a number is in the list.
fn lists(numbers: &Numbers, number: u64) -> bool
    ensures value { result ≡ is_listed numbers.now number }
{
    numbers.as_slice().contains(&number)
}

impl MemoryKeeper {
    /// A keeper without records, like a newly initialized log. Its calls with these numbers fail. Calls are counted from 1, and
    /// repairs count as calls.
    pub fn new(alloc: Global, fail: Numbers) -> MemoryKeeper
        ensures up { IsUp result }
        ensures kept { memory_records result ≡ Some [] }
        ensures images { AllAre (memory_images result) (Some []) }
        ensures size { memory_size result ≡ 17 }
        ensures generation { memory_generation result ≡ 1 }
        ensures faults { memory_faults result ≡ 0 }
        ensures calls { calls_of result ≡ 0 }
        ensures fails { fails_of result ≡ fail }
    {
        MemoryKeeper {
            steps: Steps::new(alloc),
            fail,
            calls: 0,
            faults: 0,
            size: 17,
            generation: 1,
            down: false,
        }
    }

    /// The number of calls so far, repairs included.
    pub fn calls(&self) -> u64
        ensures count { result ≡ calls_of self.now }
    {
        self.calls
    }

    /// Keeps records, unless the call's number is listed.
    fn put(&mut self, room: Room, fresh: bool, generation: u64) -> Kept
        ensures numbered { IsNumbered self.old self.new result }
        ensures steps { steps_of self.new ≡ steps_after result room.frames fresh (steps_of self.old) }
        ensures down { result ≡ Kept.Down → memory_down self.new ≡ true }
        ensures up { (result ≡ Kept.Down → ⊥) → memory_down self.new ≡ memory_down self.old }
        ensures cause { Counts (memory_faults self.old) (memory_faults self.new) (IsFaulty result) }
        ensures twice { result ≡ Kept.Down → RoseBy 2 (memory_faults self.old) (memory_faults self.new) }
        ensures size { result ≡ Kept.Ok → memory_size self.new ≡ room.size }
        ensures same_size { (result ≡ Kept.Ok → ⊥) → memory_size self.new ≡ memory_size self.old }
        ensures generation { result ≡ Kept.Ok → memory_generation self.new ≡ generation }
        ensures same_generation { (result ≡ Kept.Ok → ⊥) → memory_generation self.new ≡ memory_generation self.old }
        ensures untouched { result ≡ Kept.Memory → self.new ≡ self.old }
        ensures unspent { result ≡ Kept.Spent → ⊥ }
    {
        let Room { frames, size } = room;
        let number = self.calls.saturating_add(1);
        if !lists(&self.fail, number) {
            let step = Step {
                frames,
                fresh,
                done: true,
            };
            if self.steps.push(step).is_err() {
                return Kept::Memory;
            }
            self.calls = number;
            self.size = size;
            self.generation = generation;
            return Kept::Ok;
        }
        let mend = number.saturating_add(1);
        if !lists(&self.fail, mend) {
            self.calls = mend;
            self.faults = self.faults.saturating_add(1);
            return Kept::Failed;
        }
        let step = Step {
            frames,
            fresh,
            done: false,
        };
        if self.steps.push(step).is_err() {
            return Kept::Memory;
        }
        self.calls = mend;
        self.faults = self.faults.saturating_add(2);
        self.down = true;
        Kept::Down
    }
}

impl Keeper for MemoryKeeper {
    ghost use Rattle.std.specs.Prelude.{refl, None};
    ghost use Rattle.fleet_keeper.specs.Memory.{memory_records, memory_images, memory_moment, memory_since};
    ghost use Rattle.fleet_keeper.specs.Memory.{memory_down, memory_size, memory_generation, memory_faults, IsUp};
    ghost use Rattle.fleet_keeper.specs.MemoryLaws.{one_step_image, kept_step_image, since_now, now_only};

    ghost is_told = { true };

    ghost kept = { λ k. memory_records k };

    ghost images = { λ k. memory_images k };

    ghost moment = { λ k. memory_moment k };

    ghost images_since = { λ k. memory_since k };

    ghost is_up = { λ k. IsUp k };

    ghost down = { λ k. memory_down k };

    ghost size = { λ k. memory_size k };

    ghost generation = { λ k. memory_generation k };

    ghost side = { λ _. None };

    ghost fault_count = { λ k. memory_faults k };

    ghost opened = { λ _. (0, 0) };

    ghost is_within = { λ _ _. Unit {0} };

    ghost not_down = { λ k up. up.up };

    ghost stands = { λ k up. one_step_image (steps_of k) up.whole };

    ghost kept_may_stay = { λ k up _. kept_step_image (steps_of k) };

    ghost told = { λ k o _. refl };

    ghost told_since = { λ k t o _. refl };

    ghost counts_now = { λ k t o _ _. since_now t.0 (steps_of k) o };

    ghost only_now = { λ k o. now_only (steps_of k) o };

    fn keep(&mut self, alloc: Global, rec: &StoreRecord) -> Kept
        requires up { IsUp self.old }
        requires fits { IsStoreRecord rec.now }

        ensures any_moment { (o : Option (List Rec)) → memory_since self.new (memory_moment self.old) o
            → IsOneOf (memory_records self.old) (with_one (memory_records self.old) rec.now) o }
        ensures later { ((memory_moment self.old).0 ≤ (memory_moment self.new).0) × ((memory_moment self.old).1 ≤ (memory_moment self.new).1) }
        ensures each { (o : Option (List Rec)) → memory_images self.new o → IsOneOf (memory_records self.old) (with_one (memory_records self.old) rec.now) o }
        ensures ok { result ≡ Kept.Ok → AllAre (memory_images self.new) (with_one (memory_records self.old) rec.now) }
        ensures refused { IsRefusal result → AllAre (memory_images self.new) (memory_records self.old) }
        ensures kept_one { result ≡ Kept.Ok → memory_records self.new ≡ with_one (memory_records self.old) rec.now }
        ensures kept_old { IsRefusal result → memory_records self.new ≡ memory_records self.old }
        ensures down { (memory_down self.new ≡ true) ↔ (result ≡ Kept.Down) }
        ensures again { (result ≡ Kept.Down → ⊥) → IsUp self.new }
        ensures untouched { (result ≡ Kept.Memory) ⊎ (result ≡ Kept.Spent) → self.new ≡ self.old }

        ensures grew { result ≡ Kept.Ok → memory_size self.new ≡ memory_size self.old + 5 + length (store_text rec.now) }
        ensures same_size { (result ≡ Kept.Ok → ⊥) → memory_size self.new ≡ memory_size self.old }
        ensures generation { memory_generation self.new ≡ memory_generation self.old }
        ensures spent { result ≡ Kept.Spent → IsPast (memory_size self.old) (store_text rec.now) }
        ensures unspent { IsPast (memory_size self.old) (store_text rec.now) → (result ≡ Kept.Spent) ⊎ (result ≡ Kept.Memory) }

        ensures cause { Counts (memory_faults self.old) (memory_faults self.new) (IsFaulty result) }
        ensures twice { result ≡ Kept.Down → RoseBy 2 (memory_faults self.old) (memory_faults self.new) }
        ensures numbered { IsNumbered self.old self.new result }
    {
        match room_for(alloc, rec, self.size) {
            Err(answer) => answer,
            Ok(room) => self.put(room, false, self.generation),
        }
    }

    fn keep_spelt(&mut self, alloc: Global, rec: &Spelt) -> Kept
        requires up { IsUp self.old }
        ensures added { HasAdded true memory_records memory_images memory_moment memory_since IsUp memory_down memory_size memory_generation
            (λ _. None) memory_faults (λ _. (0, 0)) (λ _ _. Unit {0}) result self.old self.new rec.now }
        ensures numbered { IsNumbered self.old self.new result }
    {
        match room_for_spelt(alloc, rec, self.size) {
            Err(answer) => answer,
            Ok(room) => self.put(room, false, self.generation),
        }
    }

    fn checkpoint(&mut self, alloc: Global, recs: &StoreRecords) -> Kept
        requires up { IsUp self.old }
        requires fits { AllByRecursion IsStoreRecord recs.now }

        ensures any_moment { (o : Option (List Rec)) → memory_since self.new (memory_moment self.old) o → IsOneOf (memory_records self.old) (Some recs.now) o }
        ensures later { ((memory_moment self.old).0 ≤ (memory_moment self.new).0) × ((memory_moment self.old).1 ≤ (memory_moment self.new).1) }
        ensures each { (o : Option (List Rec)) → memory_images self.new o → IsOneOf (memory_records self.old) (Some recs.now) o }
        ensures ok { result ≡ Kept.Ok → AllAre (memory_images self.new) (Some recs.now) }
        ensures refused { IsRefusal result → AllAre (memory_images self.new) (memory_records self.old) }
        ensures kept_all { result ≡ Kept.Ok → memory_records self.new ≡ Some recs.now }
        ensures kept_old { IsRefusal result → memory_records self.new ≡ memory_records self.old }
        ensures down { (memory_down self.new ≡ true) ↔ (result ≡ Kept.Down) }
        ensures again { (result ≡ Kept.Down → ⊥) → IsUp self.new }
        ensures untouched { (result ≡ Kept.Memory) ⊎ (result ≡ Kept.Spent) → self.new ≡ self.old }

        ensures size { result ≡ Kept.Ok → memory_size self.new ≡ laid_size (map store_text recs.now) }
        ensures same_size { (result ≡ Kept.Ok → ⊥) → memory_size self.new ≡ memory_size self.old }
        ensures generation { result ≡ Kept.Ok → memory_generation self.new ≡ memory_generation self.old + 1 }
        ensures same_generation { (result ≡ Kept.Ok → ⊥) → memory_generation self.new ≡ memory_generation self.old }
        ensures spent { result ≡ Kept.Spent → ArePast (memory_generation self.old) (map store_text recs.now) }
        ensures unspent { ArePast (memory_generation self.old) (map store_text recs.now) → (result ≡ Kept.Spent) ⊎ (result ≡ Kept.Memory) }

        ensures cause { Counts (memory_faults self.old) (memory_faults self.new) (IsFaulty result) }
        ensures twice { result ≡ Kept.Down → RoseBy 2 (memory_faults self.old) (memory_faults self.new) }
        ensures numbered { IsNumbered self.old self.new result }
    {
        match room_for_all(alloc, recs, self.generation) {
            Err(answer) => answer,
            Ok(room) => {
                let generation = self.generation + 1;
                self.put(room, true, generation)
            }
        }
    }

    fn is_down(&self) -> bool {
        self.down
    }

    fn faults(&self) -> u64 {
        self.faults
    }
}
