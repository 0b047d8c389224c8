//! Makes the first records of the two logs.
ghost use Rattle.std.specs.Prelude.{◌≡◌, [], ◌∷◌, ◌++◌, map, IfOk, OnOk};
ghost use Rattle.log_pair.specs.record_log.Lay.{Fits};
ghost use Rattle.queue_records.specs.record_spec.Queue.{queue_text};
ghost use Rattle.queue_records.specs.record_spec.Store.{store_text, IsStoreRecord};
ghost use Rattle.core_spec.specs.Checkpoints.{settings};
ghost use Rattle.core_layout.specs.Records.{first_queued, first_kept};

use log_pair::record_log::Frames;
use queue_records::fleet_rows::Ttls;
use queue_records::record_spec::{QueueRecord, StoreRecord};
use queue_records::write_queue;
use std::alloc::{AllocError, Global};
use store_records::write_store;

/// The frames of a new queue's log.
pub(crate) fn queue_frames(alloc: Global) -> Result<Frames, AllocError>
    ensures { IfOk result (λ frames. frames ≡ map queue_text first_queued) }
{
    let mut frames = Frames::new(alloc);
    frames.push(write_queue(alloc, &QueueRecord::Base(0))?)?;
    Ok(frames)
}

/// The frames of a new store's log.
pub(crate) fn store_frames(alloc: Global, ttls: &Ttls) -> Result<Frames, AllocError>
    ensures { IfOk result (λ frames. frames ≡ map store_text (first_kept ttls.now)) }
{
    let mut frames = Frames::new(alloc);
    push_record(alloc, &mut frames, settings_of(ttls))?;
    push_record(alloc, &mut frames, StoreRecord::Base(None, None, None))?;
    Ok(frames)
}

// Appends the frame of a record.
fn push_record(alloc: Global, frames: &mut Frames, rec: StoreRecord) -> Result<(), AllocError>
    requires { IsStoreRecord rec }
    ensures { OnOk result (frames.new ≡ frames.old ++ store_text rec ∷ []) }
{
    let written = write_store(alloc, &rec);
    drop(rec);
    frames.push(written?)
}

// The record of the lifetimes.
fn settings_of(ttls: &Ttls) -> StoreRecord
    ensures value { result ≡ settings ttls.now }
    ensures lawful { IsStoreRecord result }
{
    match ttls.report_count {
        None => StoreRecord::Settings(ttls.node_days, ttls.purge_days, ttls.report_days),
        Some(count) => StoreRecord::Limits(
            ttls.node_days,
            ttls.purge_days,
            ttls.report_days,
            count,
        ),
    }
}
