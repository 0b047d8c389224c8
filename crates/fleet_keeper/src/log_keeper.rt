//! Implements a keeper over a pair of log files.
//!
//! Each record is one frame of the pair, in its only spelling. The keeper has a fault count of its own. It rises by one if the
//! pair answers Failed, and by two if it answers Down. The counts of the disks bear this out.
ghost use Rattle.std.specs.Prelude.{◌≡◌};
ghost use Rattle.log_pair.specs.Pair.{side_of, disk_a, disk_b};
ghost use Rattle.fleet_keeper.specs.Keeper.{pair_of};

use crate::answers::{appended, checked};
use crate::frames::write_frames;
use crate::keeper::Keeper;
use crate::kept::Kept;
use crate::records::StoreRecords;
use crate::spelt::Spelt;
use core_spec::record_spec::StoreRecord;
use log_pair::{Pair, Side};
use port_memory::fleet_ports::Disk;
use std::alloc::Global;

/// A keeper over two disks. Unless it is down, each pair of their images has the kept records.
#[derive(Drop)]
pub struct LogKeeper<D: Disk + Drop> {
    pub(crate) pair: Pair<D>,
    /// The number of faults of its calls, at most 2^64 - 1.
    pub(crate) faults: u64,
    /// The first disk's fault count when the keeper was opened.
    pub(crate) opened_a: u64,
    /// The second disk's fault count when the keeper was opened.
    pub(crate) opened_b: u64,
}

impl<D: Disk + Drop> Keeper for LogKeeper<D> {
    ghost use Rattle.std.specs.Prelude.{Some};
    ghost use Rattle.log_pair.specs.Pair.{side_of, generation_of_pair, size_of_pair, is_down_of, disk_a, disk_b, IsGood};
    ghost use Rattle.store_records.specs.Reading.{store_at};
    ghost use Rattle.fleet_keeper.specs.Pairs.{pair_records, PairImages, PairSince};
    ghost use Rattle.fleet_keeper.specs.Keeper.{pair_of, faults_of, opened_of, IsWithin};
    ghost use Rattle.fleet_keeper.specs.Laws.{one_image, seen_image};

    ghost is_told = { D.is_told };

    ghost kept = { λ k. pair_records store_at D.seen (pair_of k) };

    ghost images = { λ k. PairImages store_at D.may_leave (pair_of k) };

    ghost moment = { λ k. (D.moment (disk_a (pair_of k)), D.moment (disk_b (pair_of k))) };

    ghost images_since = { λ k. PairSince store_at D.left_since (pair_of k) };

    ghost is_up = { λ k. IsGood D.seen D.may_leave (pair_of k) };

    ghost down = { λ k. is_down_of (pair_of k) };

    ghost size = { λ k. size_of_pair (pair_of k) };

    ghost generation = { λ k. generation_of_pair (pair_of k) };

    ghost side = { λ k. Some (side_of (pair_of k)) };

    ghost fault_count = { λ k. faults_of k };

    ghost opened = { λ k. opened_of k };

    ghost is_within = { λ k. IsWithin D.fault_count k };

    ghost not_down = { λ k up. up.up };

    ghost stands = { λ k up. one_image store_at D.seen D.may_leave (pair_of k) up };

    ghost kept_may_stay = { λ k up told. seen_image store_at D.seen D.may_leave (pair_of k) up
        (D.seen_may_stay (disk_a (pair_of k)) told) (D.seen_may_stay (disk_b (pair_of k)) told) };

    ghost told = { λ k o image. D.told (disk_a (pair_of k)) image.0 image.2 };

    ghost told_since = { λ k t o image. D.told_since (disk_a (pair_of k)) t.0 image.0 image.2 };

    ghost counts_now = { λ k t o le_a le_b image. (
      image.0,
      image.1,
      D.counts_now (disk_a (pair_of k)) t.0 image.0 le_a image.2,
      D.counts_now (disk_b (pair_of k)) t.1 image.1 le_b image.3,
      image.4,
    ) };

    ghost only_now = { λ k o image. (
      image.0,
      image.1,
      D.only_now (disk_a (pair_of k)) image.0 image.2,
      D.only_now (disk_b (pair_of k)) image.1 image.3,
      image.4,
    ) };

    fn keep(&mut self, alloc: Global, rec: &StoreRecord) -> Kept {
        match Spelt::of(alloc, rec) {
            Ok(spelt) => self.keep_spelt(alloc, &spelt),
            Err(_) => Kept::Memory,
        }
    }

    fn keep_spelt(&mut self, alloc: Global, rec: &Spelt) -> Kept {
        let answer = self.pair.append(alloc, rec.frame.as_slice());
        appended(&mut self.faults, answer)
    }

    fn checkpoint(&mut self, alloc: Global, recs: &StoreRecords) -> Kept {
        let Ok(frames) = write_frames(alloc, recs.as_slice()) else {
            return Kept::Memory;
        };
        let answer = self.pair.checkpoint(&frames);
        checked(&mut self.faults, answer)
    }

    fn is_down(&self) -> bool {
        self.pair.is_down()
    }

    fn faults(&self) -> u64 {
        self.faults
    }
}

impl<D: Disk + Drop> LogKeeper<D> {
    /// The file that counts.
    pub fn side(&self) -> Side
        ensures value { result ≡ side_of (pair_of self.now) }
    {
        self.pair.side()
    }

    /// The first disk and the second, to be opened again or given back.
    pub fn into_disks(self) -> (D, D)
        ensures first { result.0 ≡ disk_a (pair_of self) }
        ensures second { result.1 ≡ disk_b (pair_of self) }
    {
        self.pair.into_disks()
    }
}
