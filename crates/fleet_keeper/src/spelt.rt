//! A record that was spelt before it is kept, so that the spelling needs no keeper.
ghost use Rattle.std.specs.Prelude.{◌≡◌, IfOk};
ghost use Rattle.core_spec.specs.record_spec.Store.{IsStoreRecord};

use core_spec::record_spec::StoreRecord;
use port_memory::json_tree::Bytes;
use std::alloc::{AllocError, Global};
use std::marker::Model;
use std::snapshot::Snapshot;
use store_records::write_store;

/// The bytes that a record is written as. Any thread may make it, since that needs no keeper. Contracts see the record.
#[derive(Drop)]
pub struct Spelt {
    pub(crate) frame: Bytes,
    pub(crate) rec: Snapshot<StoreRecord>,
}

impl Model for Spelt {
    ghost use Rattle.std.specs.Coded.{codes};
    ghost use Rattle.std.specs.Prelude.{◌≡◌};
    ghost use Rattle.log_pair.specs.text_spec.JsonCode.{coded_json};
    ghost use Rattle.core_spec.specs.record_spec.declared.store.StoreRecord.{StoreRecord};
    ghost use Rattle.core_spec.specs.record_spec.Store.{store_text, IsStoreRecord};

    ghost Value = { StoreRecord };

    ghost coded = { Prim.hlevel (codes, coded_json) };

    ghost view = { λ a. a.rec.value };

    ghost invariant = { λ a. IsStoreRecord a.rec.value × (a.frame ≡ store_text a.rec.value) };
}

impl Spelt {
    /// Spells a record.
    pub fn of(alloc: Global, rec: &StoreRecord) -> Result<Spelt, AllocError>
        requires { IsStoreRecord rec.now }
        ensures { IfOk result (λ spelt. spelt ≡ rec.now) }
    {
        let frame = write_store(alloc, rec)?;
        Ok(Spelt {
            frame,
            rec: Snapshot::of(rec),
        })
    }
}
