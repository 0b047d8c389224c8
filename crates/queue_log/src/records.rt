//! The list of the queue's records, as contracts see it.
ghost use Rattle.std.specs.Prelude.{◌≡◌, [], ◌∷◌, ◌++◌, OnOk, OnErr};

use fleet_keeper::record_spec::QueueRecord;
use std::alloc::{AllocError, Global};
use std::marker::Model;
use std::snapshot::Snapshot;

/// A note of a record. It has no bytes: only contracts see the record.
#[derive(Drop)]
struct RecordNote {
    rec: Snapshot<QueueRecord>,
}

impl Model for RecordNote {
    ghost use Rattle.fleet_keeper.specs.record_spec.declared.queue.QueueRecord.{QueueRecord};

    ghost Value = { QueueRecord };

    ghost view = { λ a. a.rec.value };
}

/// Records of the queue's log, oldest first. Contracts see the list; memory holds how many they are.
#[derive(Drop)]
pub struct QueueRecords {
    list: Vec<RecordNote>,
}

impl Model for QueueRecords {
    ghost use Rattle.std.specs.Prelude.{List};
    ghost use Rattle.fleet_keeper.specs.record_spec.declared.queue.QueueRecord.{QueueRecord};

    ghost Value = { List QueueRecord };

    ghost view = { λ r. r.list.items };
}

impl QueueRecords {
    /// An empty list. It takes no memory.
    pub fn new(alloc: Global) -> QueueRecords
        ensures empty { result ≡ [] }
    {
        QueueRecords {
            list: Vec::new(alloc),
        }
    }

    /// Notes one more record. On failure the list stays. The record is dropped either way.
    pub fn push(&mut self, rec: QueueRecord) -> Result<(), AllocError>
        ensures ok { OnOk result (self.new ≡ self.old ++ rec ∷ []) }
        ensures err { OnErr result (self.new ≡ self.old) }
    {
        let told = Snapshot::of(&rec);
        drop(rec);
        self.list.push(RecordNote { rec: told })?;
        Ok(())
    }
}
