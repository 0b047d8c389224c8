//! Reads frames as records, and writes records as frames.
ghost use Rattle.std.specs.Prelude.{◌≡◌, ℕ, false, List, length, map, IsTrue, IfOk};
ghost use Rattle.std.specs.List.{AllByRecursion};
ghost use Rattle.core_spec.specs.record_spec.declared.store.StoreRecord.{StoreRecord as Rec};
ghost use Rattle.core_spec.specs.record_spec.Store.{store_text, IsStoreRecord};
ghost use Rattle.core_spec.specs.Damage.{MayKeep};
ghost use Rattle.fleet_keeper.specs.Opened.{MatchRead};
ghost use Rattle.fleet_keeper.specs.Spelt.{AreRecords};

use crate::records::StoreRecords;
use core_spec::record_spec::StoreRecord;
use log_pair::record_log::Frames;
use port_memory::json_tree::Bytes;
use std::alloc::{AllocError, Global};
use store_records::{read_store, write_store};

/// Why frames aren't read as records.
#[derive(Clone, Copy, Debug, Drop)]
pub(crate) enum Unread {
    /// A frame is no record, or is one that may not stand there. The number is the byte offset of its gate in the file.
    Damaged(u64),
    /// There was no memory.
    Memory,
}

/// Whether a record may stand in a log of the store behind this number of others.
fn may_stand(rec: &StoreRecord, before: usize) -> bool
    ensures may { (earlier : List Rec) → length earlier ≡ before → IsTrue result → MayKeep rec.now earlier }
    ensures may_not { (earlier : List Rec) → length earlier ≡ before → result ≡ false → MayKeep rec.now earlier → ⊥ }
{
    match rec {
        StoreRecord::Settings(..) => before == 0,
        StoreRecord::Limits(..) => before == 0,
        StoreRecord::Base(..) => before == 1,
        _ => before >= 2,
    }
}

/// The records that the frames of a file spell. Each frame is let go once it is read, so no two copies of a log are in memory.
pub(crate) fn read_frames(alloc: Global, frames: Vec<Bytes>) -> Result<StoreRecords, Unread>
    ensures told { MatchRead result frames.items }
    ensures spelt { IfOk result (λ records. AreRecords store_text IsStoreRecord frames.items records) }
{
    let mut records = StoreRecords::new(alloc);
    let mut at = 16u64;
    'reading: for frame in frames {
        let size = frame.as_slice().len() as u64;
        let read = read_store(alloc, frame.as_slice());
        drop(frame);
        match read {
            Err(_) => return Err(Unread::Memory),
            Ok(None) => return Err(Unread::Damaged(at)),
            Ok(Some(rec)) => {
                let stands = may_stand(&rec, records.as_slice().len());
                if records.push(rec).is_err() {
                    return Err(Unread::Memory);
                }
                if !stands {
                    return Err(Unread::Damaged(at));
                }
                at = at.saturating_add(5 + size);
            }
        }
    }
    if records.as_slice().len() < 2 {
        return Err(Unread::Damaged(at));
    }
    Ok(records)
}

/// The spellings of the records, one a frame.
pub(crate) fn write_frames(alloc: Global, records: &[StoreRecord]) -> Result<Frames, AllocError>
    requires fits { AllByRecursion IsStoreRecord records.now }
    ensures spelt { IfOk result (λ f. f ≡ map store_text records.now) }
{
    let mut frames = Frames::new(alloc);
    'writing: for rec in records {
        let frame = write_store(alloc, rec)?;
        frames.push(frame)?;
    }
    Ok(frames)
}
