//! The trait of a keeper, and its contracts.
//!
//! Contracts name what a keeper keeps and what a crash may leave of it. Its images are lists of records, or None for what is no
//! list of records. A keeper that tells no content has no images.
//!
//! A keeper's moment is a pair of numbers, one for each of two files that share no clock. An image since a pair of moments
//! combines one file's image since its own number with the other file's since its own. Within one call this is exact, because a
//! call writes only one file.
ghost use Rattle.std.specs.Prelude.{◌≡◌, ◌⊎◌, ◌↔◌, ◌+◌, ◌≤◌, ℕ, Bool, true, false, List, length, map, Option, Some, IsTrue};
ghost use Rattle.std.specs.List.{AllByRecursion};
ghost use Rattle.port_memory.specs.fleet_ports.Counts.{Counts, RoseBy};
ghost use Rattle.log_pair.specs.log_spec.declared.side.Side.{Side};
ghost use Rattle.log_pair.specs.record_log.Lay.{laid_size};
ghost use Rattle.core_spec.specs.record_spec.declared.store.StoreRecord.{StoreRecord as Rec};
ghost use Rattle.core_spec.specs.record_spec.Store.{store_text, IsStoreRecord};
ghost use Rattle.fleet_keeper.specs.Added.{HasAdded};
ghost use Rattle.fleet_keeper.specs.Kept.{IsRefusal, IsFaulty};
ghost use Rattle.fleet_keeper.specs.Records.{AllAre, IsOneOf, with_one};
ghost use Rattle.fleet_keeper.specs.Limits.{IsPast, ArePast};
ghost use Rattle.fleet_keeper.specs.Sides.{turned_side};

use crate::kept::Kept;
use crate::records::StoreRecords;
use crate::spelt::Spelt;
use core_spec::record_spec::StoreRecord;
use std::alloc::Global;

/// Keeps the store's records.
pub trait Keeper {
    /// Whether contracts know the content. A keeper over real files tells none.
    ghost is_told: { Bool };

    /// The kept records, oldest first; None if the content is no list of records.
    ghost kept: { Self → Option (List Rec) };

    /// The images: what a crash at this moment may leave.
    ghost images: { Self → Option (List Rec) → Type 0 };

    /// The moment: two numbers that never fall.
    ghost moment: { Self → ℕ × ℕ };

    /// The images at the moments since a given one.
    ghost images_since: { Self → ℕ × ℕ → Option (List Rec) → Type 0 };

    /// The keeper isn't down, and each image has the kept records.
    ghost is_up: { Self → Type 0 };

    /// Whether a repair failed.
    ghost down: { Self → Bool };

    /// The size of the log in bytes.
    ghost size: { Self → ℕ };

    /// The number of the checkpoint with which the log starts.
    ghost generation: { Self → ℕ };

    /// Which of two files the log is in; None for a keeper without files.
    ghost side: { Self → Option Side };

    /// The number of faults of its calls, at most 2^64 - 1.
    ghost fault_count: { Self → ℕ };

    /// The fault counts of its two disks when it was opened.
    ghost opened: { Self → ℕ × ℕ };

    /// A bound on the fault count, given three earlier counts: the keeper's and its two disks'. The keeper's count rose by at
    /// most as much as the disks' counts together, unless one of those stands at 2^64 - 1. No disk's count fell. If the keeper is
    /// down, one disk's count rose by two, or stands at 2^64 - 1. A keeper without disks has no such bound.
    ghost is_within: { Self → ℕ × ℕ × ℕ → Type 0 };

    /// Appends a record.
    fn keep(&mut self, alloc: Global, rec: &StoreRecord) -> Kept
        requires up { is_up self.old }
        requires fits { IsStoreRecord rec.now }

        ensures any_moment { (o : Option (List Rec)) → images_since self.new (moment self.old) o
            → IsOneOf (kept self.old) (with_one (kept self.old) rec.now) o }
        ensures later { ((moment self.old).0 ≤ (moment self.new).0) × ((moment self.old).1 ≤ (moment self.new).1) }
        ensures each { (o : Option (List Rec)) → images self.new o → IsOneOf (kept self.old) (with_one (kept self.old) rec.now) o }
        ensures ok { result ≡ Kept.Ok → AllAre (images self.new) (with_one (kept self.old) rec.now) }
        ensures refused { IsRefusal result → AllAre (images self.new) (kept self.old) }
        ensures kept_one { result ≡ Kept.Ok → IsTrue is_told → kept self.new ≡ with_one (kept self.old) rec.now }
        ensures kept_old { IsRefusal result → IsTrue is_told → kept self.new ≡ kept self.old }
        ensures down { (down self.new ≡ true) ↔ (result ≡ Kept.Down) }
        ensures again { (result ≡ Kept.Down → ⊥) → is_up self.new }
        ensures untouched { (result ≡ Kept.Memory) ⊎ (result ≡ Kept.Spent) → self.new ≡ self.old }

        ensures grew { result ≡ Kept.Ok → size self.new ≡ size self.old + 5 + length (store_text rec.now) }
        ensures same_size { (result ≡ Kept.Ok → ⊥) → size self.new ≡ size self.old }
        ensures generation { generation self.new ≡ generation self.old }
        ensures side { side self.new ≡ side self.old }
        ensures spent { result ≡ Kept.Spent → IsPast (size self.old) (store_text rec.now) }
        ensures unspent { IsPast (size self.old) (store_text rec.now) → (result ≡ Kept.Spent) ⊎ (result ≡ Kept.Memory) }

        ensures cause { Counts (fault_count self.old) (fault_count self.new) (IsFaulty result) }
        ensures twice { result ≡ Kept.Down → RoseBy 2 (fault_count self.old) (fault_count self.new) }
        ensures opened { opened self.new ≡ opened self.old }
        ensures within { (since : ℕ × ℕ × ℕ) → is_within self.old since → is_within self.new since };

    /// Appends a record that was spelt before. Its contract is that of `keep`.
    fn keep_spelt(&mut self, alloc: Global, rec: &Spelt) -> Kept
        requires up { is_up self.old }
        ensures added { HasAdded is_told kept images moment images_since is_up down size generation side
            fault_count opened is_within result self.old self.new rec.now };

    /// Replaces all records with these.
    fn checkpoint(&mut self, alloc: Global, recs: &StoreRecords) -> Kept
        requires up { is_up self.old }
        requires fits { AllByRecursion IsStoreRecord recs.now }

        ensures any_moment { (o : Option (List Rec)) → images_since self.new (moment self.old) o → IsOneOf (kept self.old) (Some recs.now) o }
        ensures later { ((moment self.old).0 ≤ (moment self.new).0) × ((moment self.old).1 ≤ (moment self.new).1) }
        ensures each { (o : Option (List Rec)) → images self.new o → IsOneOf (kept self.old) (Some recs.now) o }
        ensures ok { result ≡ Kept.Ok → AllAre (images self.new) (Some recs.now) }
        ensures refused { IsRefusal result → AllAre (images self.new) (kept self.old) }
        ensures kept_all { result ≡ Kept.Ok → IsTrue is_told → kept self.new ≡ Some recs.now }
        ensures kept_old { IsRefusal result → IsTrue is_told → kept self.new ≡ kept self.old }
        ensures down { (down self.new ≡ true) ↔ (result ≡ Kept.Down) }
        ensures again { (result ≡ Kept.Down → ⊥) → is_up self.new }
        ensures untouched { (result ≡ Kept.Memory) ⊎ (result ≡ Kept.Spent) → self.new ≡ self.old }

        ensures size { result ≡ Kept.Ok → size self.new ≡ laid_size (map store_text recs.now) }
        ensures same_size { (result ≡ Kept.Ok → ⊥) → size self.new ≡ size self.old }
        ensures generation { result ≡ Kept.Ok → generation self.new ≡ generation self.old + 1 }
        ensures same_generation { (result ≡ Kept.Ok → ⊥) → generation self.new ≡ generation self.old }
        ensures side { result ≡ Kept.Ok → side self.new ≡ turned_side (side self.old) }
        ensures same_side { (result ≡ Kept.Ok → ⊥) → side self.new ≡ side self.old }
        ensures spent { result ≡ Kept.Spent → ArePast (generation self.old) (map store_text recs.now) }
        ensures unspent { ArePast (generation self.old) (map store_text recs.now) → (result ≡ Kept.Spent) ⊎ (result ≡ Kept.Memory) }

        ensures cause { Counts (fault_count self.old) (fault_count self.new) (IsFaulty result) }
        ensures twice { result ≡ Kept.Down → RoseBy 2 (fault_count self.old) (fault_count self.new) }
        ensures opened { opened self.new ≡ opened self.old }
        ensures within { (since : ℕ × ℕ × ℕ) → is_within self.old since → is_within self.new since };

    /// Whether a repair failed. A keeper that is down must be opened again.
    fn is_down(&self) -> bool
        ensures value { result ≡ down self.now };

    /// The number of faults of its calls. The count stays at 2^64 - 1 once it gets there.
    fn faults(&self) -> u64
        ensures count { result ≡ fault_count self.now };

    /// A keeper that is up isn't down.
    ghost not_down: { (keeper : Self) → is_up keeper → down keeper ≡ false };

    /// Each image of a keeper that is up has the kept records.
    ghost stands: { (keeper : Self) → is_up keeper → AllAre (images keeper) (kept keeper) };

    /// The kept records of a keeper that is up are an image, if content is told.
    ghost kept_may_stay: { (keeper : Self) → is_up keeper → IsTrue is_told → images keeper (kept keeper) };

    /// If there is an image, content is told.
    ghost told: { (keeper : Self) (o : Option (List Rec)) → images keeper o → IsTrue is_told };

    /// If there was an image at some moment, content is told.
    ghost told_since: { (keeper : Self) (t : ℕ × ℕ) (o : Option (List Rec)) → images_since keeper t o → IsTrue is_told };

    /// The images of this moment are among those since an earlier one.
    ghost counts_now: { (keeper : Self) (t : ℕ × ℕ) (o : Option (List Rec)) → t.0 ≤ (moment keeper).0 → t.1 ≤ (moment keeper).1
        → images keeper o → images_since keeper t o };

    /// The images since this moment are those of this moment.
    ghost only_now: { (keeper : Self) (o : Option (List Rec)) → images_since keeper (moment keeper) o → images keeper o };
}
