//! Opens a pair: reads both files, of which the newest open one counts.
ghost use Rattle.std.specs.Prelude.{◌≡◌, ℕ, List, IsTrue, IfOk, IfErr, false};
ghost use Rattle.record_log.specs.fleet_ports.Counts.{Counts};
ghost use Rattle.record_log.specs.Untouched.{IsUntouched};
ghost use Rattle.log_spec.specs.Image.{Image, damaged};
ghost use Rattle.log_spec.specs.ImageOf.{image_of};
ghost use Rattle.log_spec.specs.PairImage.{broken, pair_image};
ghost use Rattle.log_spec.specs.declared.side.Side.{Side};
ghost use Rattle.record_log.specs.Log.{AllStand};
ghost use Rattle.log_pair.specs.declared.opened.PairFault.TheVariants.{Damaged};
ghost use Rattle.log_pair.specs.Pair.{EachPair, IsPair, PairStands, IsGood};
ghost use Rattle.log_pair.specs.Open.{MatchFile, TellsFile, FileStands, IsFileFault, disk_in, disk_after};
ghost use Rattle.log_pair.specs.Open.{MatchPair, IsPairFault, first_after, second_after, PairCounts};

use crate::pair::Pair;
use log_spec::Side;
use record_log::fleet_ports::Disk;
use record_log::{Frames, Log, OpenFault, open_log};
use std::alloc::Global;
use thiserror::Error;

/// Why a pair couldn't be opened.
#[derive(Clone, Copy, Debug, Drop, Error)]
pub enum PairFault {
    /// A file is damaged; the first file is checked first. If no file is open, the first is damaged at 0.
    #[error("damaged at {at}")]
    Damaged {
        /// Which file.
        file: Side,
        /// The offset of the damage.
        at: u64,
    },
    /// A disk counted a fault.
    #[error("disk fault")]
    DiskFault,
    /// Memory ran out.
    #[error("out of memory")]
    Memory,
}

/// A file that was read and isn't damaged.
#[derive(Drop)]
pub(crate) enum ReadFile<D: Disk + Drop> {
    Open(Log<D>, Frames),
    Closed(D),
}

/// Reads the file of this side.
fn read_file<D: Disk + Drop>(
    alloc: Global,
    disk: D,
    side: Side,
) -> Result<ReadFile<D>, (PairFault, D)>
    ensures told { IsTrue D.is_told → MatchFile result side (image_of (D.seen disk)) }
    ensures stands { IfOk result (λ file. FileStands D.seen D.may_leave file) }
    ensures damaged { IfErr result (λ e. (file : Side) (at : ℕ) → e.0 ≡ Damaged file at → (file ≡ side) × AllStand (D.may_leave e.1) (damaged at)) }
    ensures untouched { IsUntouched D.Disk disk (disk_after result) }
    ensures cause { Counts (D.fault_count disk) (D.fault_count (disk_after result)) (IsFileFault result) }
{
    match open_log(alloc, disk) {
        Ok((log, frames)) => Ok(ReadFile::Open(log, frames)),
        Err((OpenFault::Closed, disk)) => Ok(ReadFile::Closed(disk)),
        Err((OpenFault::Damaged { at }, disk)) => Err((
            PairFault::Damaged { file: side, at },
            disk,
        )),
        Err((OpenFault::DiskFault, disk)) => Err((PairFault::DiskFault, disk)),
        Err((OpenFault::Memory, disk)) => Err((PairFault::Memory, disk)),
    }
}

/// The disk of a file that was read.
fn disk_of_file<D: Disk + Drop>(file: ReadFile<D>) -> D
    ensures { result ≡ disk_in file }
{
    match file {
        ReadFile::Open(log, _) => log.into_disk(),
        ReadFile::Closed(disk) => disk,
    }
}

/// The pair of this log and the other file.
fn pair_of<D: Disk + Drop>(log: Log<D>, other: D, side: Side) -> Pair<D>
    ensures { result ≡ record { log = log; other = other; side = side; torn = false } }
{
    Pair {
        log,
        other,
        side,
        torn: false,
    }
}

/// Joins two files to a pair. The open one with the greater generation counts, or the first if they are equal.
fn joined<D: Disk + Drop>(
    a: ReadFile<D>,
    b: ReadFile<D>,
) -> Result<(Pair<D>, Frames), (PairFault, D, D)>
    requires first { FileStands D.seen D.may_leave a }
    requires second { FileStands D.seen D.may_leave b }
    ensures told { (x y : Image) → TellsFile a x → TellsFile b y → MatchPair result (pair_image x y) }
    ensures good { IfOk result (λ r. IsGood D.seen D.may_leave r.0) }
    ensures stands { IfOk result (λ r. PairStands D.may_leave r.0 r.1) }
    ensures damaged { IfErr result (λ e. (file : Side) (at : ℕ) → e.0 ≡ Damaged file at
        → EachPair (D.may_leave e.1) (D.may_leave e.2) (IsPair (broken file at))) }
    ensures first { first_after result ≡ disk_in a }
    ensures second { second_after result ≡ disk_in b }
    ensures calm { IsPairFault result → ⊥ }
{
    match a {
        ReadFile::Open(log_a, frames_a) => match b {
            ReadFile::Open(log_b, frames_b) => {
                if log_b.generation() > log_a.generation() {
                    return Ok((pair_of(log_b, log_a.into_disk(), Side::B), frames_b));
                }
                Ok((pair_of(log_a, log_b.into_disk(), Side::A), frames_a))
            }
            ReadFile::Closed(other) => Ok((pair_of(log_a, other, Side::A), frames_a)),
        },
        ReadFile::Closed(first) => match b {
            ReadFile::Open(log_b, frames_b) => Ok((pair_of(log_b, first, Side::B), frames_b)),
            ReadFile::Closed(second) => {
                let fault = PairFault::Damaged {
                    file: Side::A,
                    at: 0,
                };
                Err((fault, first, second))
            }
        },
    }
}

/// Opens a pair of files: gives the pair and its frames. Each file is synced before it is read, so that a crash leaves what was
/// read. An error hands the disks back. If the first file is damaged, the second isn't read.
pub fn open_pair<D: Disk + Drop>(
    alloc: Global,
    a: D,
    b: D,
) -> Result<(Pair<D>, Frames), (PairFault, D, D)>
    ensures told { IsTrue D.is_told → MatchPair result (pair_image (image_of (D.seen a)) (image_of (D.seen b))) }
    ensures good { IfOk result (λ r. IsGood D.seen D.may_leave r.0) }
    ensures stands { IfOk result (λ r. PairStands D.may_leave r.0 r.1) }
    ensures damaged { IfErr result (λ e. (file : Side) (at : ℕ) → e.0 ≡ Damaged file at
        → EachPair (D.may_leave e.1) (D.may_leave e.2) (IsPair (broken file at))) }
    ensures first { IsUntouched D.Disk a (first_after result) }
    ensures second { IsUntouched D.Disk b (second_after result) }
    ensures cause { PairCounts (D.fault_count a) (D.fault_count (first_after result))
        (D.fault_count b) (D.fault_count (second_after result)) (IsPairFault result) }
{
    let first = match read_file(alloc, a, Side::A) {
        Ok(first) => first,
        Err((fault, a)) => return Err((fault, a, b)),
    };
    let second = match read_file(alloc, b, Side::B) {
        Ok(second) => second,
        Err((fault, b)) => return Err((fault, disk_of_file(first), b)),
    };
    joined(first, second)
}
