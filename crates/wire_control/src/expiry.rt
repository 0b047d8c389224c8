//! Reads a configuration of expiration from a payload's object.
ghost use Rattle.std.specs.Prelude.{◌≡◌};
ghost use Rattle.wire_fields.specs.wire_spec.Table.{object_change};
ghost use Rattle.wire_control.specs.InOrder.{expiration_in_order};
ghost use Rattle.wire_fields.specs.fleet_rows.declared.command.Kind.TheVariants as kind;

use wire_fields::fleet_rows::{Change, ExpirationChange, Field, Refusal};
use wire_fields::json_tree::{Members, Text};
use wire_fields::stamp_time::Moment;
use wire_fields::{required_bool, required_members, required_nonempty_text, required_stamp, top};

/// Whether the node may expire, or the first refused field: certname, producer_timestamp, expire and in it facts. Unknown keys
/// are ignored. It moves the values and allocates nothing.
pub fn expiration(json: Members) -> Result<Change, Refusal>
    ensures { result ≡ object_change kind.Expiration json }
{
    let mut json = json;
    let certname = required_nonempty_text(&mut json, top(Field::Certname));
    let stamp = required_stamp(&mut json, top(Field::ProducerTimestamp));
    let expire = required_members(&mut json, top(Field::Expire));
    in_order(certname, stamp, expire)
}

// The change, or the first refusal.
fn in_order(
    certname: Result<Text, Refusal>,
    stamp: Result<Moment, Refusal>,
    expire: Result<Members, Refusal>,
) -> Result<Change, Refusal>
    ensures { result ≡ expiration_in_order certname stamp expire }
{
    let certname = certname?;
    let stamp = stamp?;
    let mut expire = expire?;
    let expire = required_bool(&mut expire, top(Field::ExpireFacts))?;
    Ok(Change::Expiration(ExpirationChange {
        certname,
        stamp,
        expire,
    }))
}
