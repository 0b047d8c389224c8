//! Reads a deactivation from a payload's object.
ghost use Rattle.std.specs.Prelude.{◌≡◌};
ghost use Rattle.wire_fields.specs.wire_spec.Table.{object_change};
ghost use Rattle.wire_control.specs.InOrder.{deactivate_in_order};
ghost use Rattle.wire_fields.specs.fleet_rows.declared.command.Kind.TheVariants as kind;

use wire_fields::fleet_rows::{Change, DeactivateChange, Field, Refusal};
use wire_fields::json_tree::{Members, Text};
use wire_fields::stamp_time::Moment;
use wire_fields::{required_nonempty_text, required_stamp, top};

/// The deactivation in the object, or the first refused field: certname, producer_timestamp. Unknown keys are ignored. It moves
/// the values and allocates nothing.
pub fn deactivate(json: Members) -> Result<Change, Refusal>
    ensures { result ≡ object_change kind.Deactivate json }
{
    let mut json = json;
    let certname = required_nonempty_text(&mut json, top(Field::Certname));
    let stamp = required_stamp(&mut json, top(Field::ProducerTimestamp));
    in_order(certname, stamp)
}

// The change, or the first refusal.
fn in_order(
    certname: Result<Text, Refusal>,
    stamp: Result<Moment, Refusal>,
) -> Result<Change, Refusal>
    ensures { result ≡ deactivate_in_order certname stamp }
{
    Ok(Change::Deactivate(DeactivateChange {
        certname: certname?,
        stamp: stamp?,
    }))
}
