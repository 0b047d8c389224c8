//! Writes a checkpoint: replaces all frames of a pair by new ones.
ghost use Rattle.std.specs.Prelude.{◌≡◌, ◌⊎◌, ◌↔◌, ◌+◌, ◌-◌, ◌^◌, ◌∷◌, true};
ghost use Rattle.record_log.specs.fleet_ports.Counts.{Counts, RoseBy};
ghost use Rattle.record_log.specs.fleet_ports.Disks.{Only};
ghost use Rattle.log_spec.specs.ImageOf.{rest_text};
ghost use Rattle.record_log.specs.Lay.{IsTooLong, laid_size};
ghost use Rattle.log_pair.specs.Pair.{flipped, side_of, file_of, newest_of, generation_of_pair, size_of_pair, is_down_of, pair_frames};
ghost use Rattle.log_pair.specs.Pair.{AllPairs, IsPair, PairStands, WritesOneFile, IsGood};
ghost use Rattle.log_pair.specs.Turns.{old_image, renewed_image, IsEither, IsCheckFault, IsCheckRefusal};

use crate::pair::Pair;
use log_spec::Side;
use record_log::fleet_ports::Disk;
use record_log::{Frames, Renewed, renew};

/// The result of a checkpoint.
#[derive(Clone, Copy, Debug, PartialEq, Eq)]
pub enum Checked {
    /// In every image the frames are the new ones.
    Ok,
    /// The disk counted a fault. In every image, the frames are the old ones.
    Failed,
    /// The disk counted a fault when the file's gate was opened, and another in the repair, which writes 0 at 0 and syncs. An
    /// image has the old frames or the new ones. The pair is down.
    Down,
    /// The generation is 2^64 - 1. No disk was called.
    Spent,
    /// A frame has 2^32 bytes or more, or the file would exceed 2^62 bytes. No disk was called.
    TooLong,
}

/// The side of the other file.
fn turned(side: Side) -> Side
    ensures { result ≡ flipped side }
{
    match side {
        Side::A => Side::B,
        Side::B => Side::A,
    }
}

impl<D: Disk + Drop> Pair<D> {
    /// Lays the other file with the next generation and these frames, which then are the frames of the pair. It allocates
    /// nothing.
    pub fn checkpoint(&mut self, frames: &Frames) -> Checked
        requires good { IsGood D.seen D.may_leave self.old }

        ensures any_moment { WritesOneFile D.Disk (flipped (side_of self.old)) self.old self.new
            (IsEither (old_image D.seen self.old) (renewed_image self.old frames.now)) }
        ensures ok { result ≡ Checked.Ok → AllPairs D.may_leave self.new (IsPair (renewed_image self.old frames.now)) }
        ensures stands { result ≡ Checked.Ok → PairStands D.may_leave self.new frames.now }
        ensures bytes { result ≡ Checked.Ok → Only (1 ∷ rest_text (generation_of_pair self.old + 1) frames.now) (D.may_leave (newest_of self.new)) }
        ensures refused { IsCheckRefusal result → PairStands D.may_leave self.new (pair_frames D.seen self.old) }
        ensures open_gate { result ≡ Checked.Down → AllPairs D.may_leave self.new
            (IsEither (old_image D.seen self.old) (renewed_image self.old frames.now)) }
        ensures down { (is_down_of self.new ≡ true) ↔ (result ≡ Checked.Down) }
        ensures untouched { (result ≡ Checked.Spent) ⊎ (result ≡ Checked.TooLong) → self.new ≡ self.old }

        ensures side { result ≡ Checked.Ok → side_of self.new ≡ flipped (side_of self.old) }
        ensures same_side { (result ≡ Checked.Ok → ⊥) → side_of self.new ≡ side_of self.old }
        ensures generation { result ≡ Checked.Ok → generation_of_pair self.new ≡ generation_of_pair self.old + 1 }
        ensures same_generation { (result ≡ Checked.Ok → ⊥) → generation_of_pair self.new ≡ generation_of_pair self.old }
        ensures size { result ≡ Checked.Ok → size_of_pair self.new ≡ laid_size frames.now }
        ensures same_size { (result ≡ Checked.Ok → ⊥) → size_of_pair self.new ≡ size_of_pair self.old }

        // Unless the pair is down, it can be called again.
        ensures again { (result ≡ Checked.Down → ⊥) → IsGood D.seen D.may_leave self.new }

        ensures spent { (result ≡ Checked.Spent) ↔ (generation_of_pair self.old ≡ 2 ^ 64 - 1) }
        ensures too_long { (result ≡ Checked.TooLong) ↔ ((generation_of_pair self.old ≡ 2 ^ 64 - 1 → ⊥) × IsTooLong frames.now) }
        ensures cause { Counts (D.fault_count (file_of (flipped (side_of self.old)) self.old))
            (D.fault_count (file_of (flipped (side_of self.old)) self.new)) (IsCheckFault result) }
        ensures twice { result ≡ Checked.Down → RoseBy 2 (D.fault_count (file_of (flipped (side_of self.old)) self.old))
            (D.fault_count (file_of (flipped (side_of self.old)) self.new)) }
    {
        if self.log.generation() == u64::MAX {
            return Checked::Spent;
        }
        let generation = self.log.generation() + 1;
        match renew(&mut self.other, generation, frames) {
            Renewed::Done => {
                self.log.go_over(&mut self.other, generation, frames);
                self.side = turned(self.side);
                Checked::Ok
            }
            Renewed::Failed => Checked::Failed,
            Renewed::Down => {
                self.torn = true;
                Checked::Down
            }
            Renewed::TooLong => Checked::TooLong,
        }
    }
}
