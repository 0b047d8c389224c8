//! Takes a change out of its record again.
ghost use Rattle.std.specs.Prelude.{◌≡◌};
ghost use Rattle.core_settles.specs.Records.{change_in};

use fleet_rows::Change;
use record_spec::StoreRecord;

/// The change of a record that has one.
pub(crate) fn change_of(rec: StoreRecord) -> Option<Change>
    ensures { result ≡ change_in rec }
{
    match rec {
        StoreRecord::Received(_, _, change) => Some(change),
        other => {
            drop(other);
            None
        }
    }
}
