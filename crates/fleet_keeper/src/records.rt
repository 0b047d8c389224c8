//! The list of the store's records.
ghost use Rattle.std.specs.Prelude.{◌≡◌, [], ◌∷◌, ◌++◌, OnOk, OnErr};

use core_spec::record_spec::StoreRecord;
use std::alloc::{AllocError, Global};
use std::marker::Model;

/// Records of the store's log, oldest first. Contracts see the list.
#[derive(Drop)]
pub struct StoreRecords {
    list: Vec<StoreRecord>,
}

impl Model for StoreRecords {
    ghost use Rattle.std.specs.Prelude.{List};
    ghost use Rattle.core_spec.specs.record_spec.declared.store.StoreRecord.{StoreRecord};

    ghost Value = { List StoreRecord };

    ghost use Rattle.std.specs.Coded.{codes};
    ghost use Rattle.log_pair.specs.text_spec.JsonCode.{coded_json};

    ghost coded = { Prim.hlevel (codes, coded_json) };

    ghost view = { λ r. r.list.items };
}

impl StoreRecords {
    /// An empty list. It takes no memory.
    pub fn new(alloc: Global) -> StoreRecords
        ensures empty { result ≡ [] }
    {
        StoreRecords {
            list: Vec::new(alloc),
        }
    }

    /// Appends a record. On failure the list stays, and the record is dropped.
    pub fn push(&mut self, rec: StoreRecord) -> Result<(), AllocError>
        ensures ok { OnOk result (self.new ≡ self.old ++ rec ∷ []) }
        ensures err { OnErr result (self.new ≡ self.old) }
    {
        self.list.push(rec)?;
        Ok(())
    }

    /// The records, oldest first.
    pub fn as_slice(&self) -> &[StoreRecord]
        ensures value { result.now ≡ self.now }
    {
        self.list.as_slice()
    }

    /// The records, oldest first, to be taken one by one.
    pub fn into_vec(self) -> Vec<StoreRecord>
        ensures value { result.items ≡ self }
    {
        self.list
    }
}
