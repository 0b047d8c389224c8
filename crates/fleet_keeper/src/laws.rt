//! Laws of frames and records. Each is the contract of a function with an empty body.
ghost use Rattle.std.specs.Prelude.{◌≡◌, ◌↔◌, ℕ, List, Some};
ghost use Rattle.std.specs.List.{AllByRecursion};
ghost use Rattle.log_pair.specs.log_spec.PairImage.{PairImage};
ghost use Rattle.log_pair.specs.log_spec.declared.side.Side.{Side};
ghost use Rattle.core_spec.specs.record_spec.declared.store.StoreRecord.{StoreRecord};
ghost use Rattle.core_spec.specs.record_spec.Store.{store_text, IsStoreRecord};
ghost use Rattle.core_spec.specs.Damage.{IsStoreLog, IsStoreDamage};
ghost use Rattle.store_records.specs.Reading.{store_at};
ghost use Rattle.fleet_keeper.specs.Records.{read_all, records_in};
ghost use Rattle.fleet_keeper.specs.Spelt.{AreRecords, IsByteList};
ghost use Rattle.fleet_keeper.specs.Opened.{IsDamaged, IsDamageOf};

/// Reading frames agrees with the definition by spelling: it finds the same records, and the same first damaged frame.
pub fn frames_are_read_as_they_are_spelt()
    ensures records { (frames : List (List ℕ)) (records : List StoreRecord) → AllByRecursion IsByteList frames
        → (read_all store_at frames ≡ Some records) ↔ AreRecords store_text IsStoreRecord frames records }
    ensures damage { (frames : List (List ℕ)) (index : ℕ) → AllByRecursion IsByteList frames → IsDamaged frames index ↔ IsStoreDamage frames index }
{}

/// Two files are damaged at one position at most. A log of the store has no damage.
pub fn two_files_are_damaged_at_one_place()
    ensures one { (image : PairImage) (file side : Side) (at place : ℕ) → IsDamageOf image file at → IsDamageOf image side place
        → (file ≡ side) × (at ≡ place) }
    ensures none { (image : PairImage) (file : Side) (at : ℕ) (records : List StoreRecord) → IsDamageOf image file at
        → records_in store_at image ≡ Some records → IsStoreLog records → ⊥ }
{}
