//! Appends a frame to a pair.
ghost use Rattle.std.specs.Prelude.{◌≡◌, ◌⊎◌, ◌↔◌, ◌+◌, ◌^◌, ◌<◌, ◌≤◌, ◌++◌, ◌∷◌, [], length, true};
ghost use Rattle.record_log.specs.fleet_ports.Counts.{Counts, RoseBy};
ghost use Rattle.record_log.specs.Log.{IsFaulty, IsRefusal};
ghost use Rattle.log_pair.specs.Pair.{side_of, newest_of, generation_of_pair, size_of_pair, is_down_of, pair_frames};
ghost use Rattle.log_pair.specs.Pair.{AllPairs, PairStands, WritesOneFile, IsGood};
ghost use Rattle.log_pair.specs.Turns.{old_image, grown_image, IsEither};
ghost use Rattle.log_spec.specs.Limits.{most_log};

use crate::pair::Pair;
use record_log::Appended;
use record_log::fleet_ports::Disk;
use std::alloc::Global;

impl<D: Disk + Drop> Pair<D> {
    /// Appends a frame to the file that counts. A frame of at most 64 bytes needs no memory. A longer one allocates before any
    /// call of the disk.
    pub fn append(&mut self, alloc: Global, frame: &[u8]) -> Appended
        requires good { IsGood D.seen D.may_leave self.old }

        ensures any_moment { WritesOneFile D.Disk (side_of self.old) self.old self.new
            (IsEither (old_image D.seen self.old) (grown_image D.seen self.old frame.now)) }
        ensures ok { result ≡ Appended.Ok → PairStands D.may_leave self.new (pair_frames D.seen self.old ++ frame.now ∷ []) }
        ensures refused { IsRefusal result → PairStands D.may_leave self.new (pair_frames D.seen self.old) }
        ensures open_gate { result ≡ Appended.Down → AllPairs D.may_leave self.new
            (IsEither (old_image D.seen self.old) (grown_image D.seen self.old frame.now)) }
        ensures down { (is_down_of self.new ≡ true) ↔ (result ≡ Appended.Down) }
        ensures untouched { (result ≡ Appended.Memory) ⊎ (result ≡ Appended.TooLong) → self.new ≡ self.old }

        ensures side { side_of self.new ≡ side_of self.old }
        ensures generation { generation_of_pair self.new ≡ generation_of_pair self.old }
        ensures grew { result ≡ Appended.Ok → size_of_pair self.new ≡ size_of_pair self.old + 5 + length frame.now }
        ensures same_size { (result ≡ Appended.Ok → ⊥) → size_of_pair self.new ≡ size_of_pair self.old }

        // Unless the pair is down, it can be called again.
        ensures again { (result ≡ Appended.Down → ⊥) → IsGood D.seen D.may_leave self.new }

        ensures too_long { (result ≡ Appended.TooLong) ↔ ((2 ^ 32 ≤ length frame.now) ⊎ (most_log < size_of_pair self.old + 5 + length frame.now)) }
        ensures short { length frame.now ≤ 64 → result ≡ Appended.Memory → ⊥ }
        ensures cause { Counts (D.fault_count (newest_of self.old)) (D.fault_count (newest_of self.new)) (IsFaulty result) }
        ensures twice { result ≡ Appended.Down → RoseBy 2 (D.fault_count (newest_of self.old)) (D.fault_count (newest_of self.new)) }
    {
        self.log.append(alloc, frame)
    }
}
