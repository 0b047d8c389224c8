//! Reads all facts of a node from a payload's object.
ghost use Rattle.std.specs.Prelude.{◌≡◌};
ghost use Rattle.wire_fields.specs.wire_spec.Table.{object_change};
ghost use Rattle.wire_facts.specs.InOrder.{facts_in_order};
ghost use Rattle.wire_fields.specs.fleet_rows.declared.command.Kind.TheVariants as kind;

use wire_fields::fleet_rows::{Change, FactsChange, Field, Refusal};
use wire_fields::json_tree::{Members, Text};
use wire_fields::stamp_time::Moment;
use wire_fields::{optional_text, required_members, required_nonempty_text, required_stamp, top};

/// The facts in the object, or the first refused field: certname, environment, values, producer_timestamp, producer. Unknown keys
/// are ignored. It moves the values and allocates nothing.
pub fn facts(json: Members) -> Result<Change, Refusal>
    ensures { result ≡ object_change kind.Facts json }
{
    let mut json = json;
    let certname = required_nonempty_text(&mut json, top(Field::Certname));
    let environment = optional_text(&mut json, top(Field::Environment));
    let values = required_members(&mut json, top(Field::Values));
    let stamp = required_stamp(&mut json, top(Field::ProducerTimestamp));
    let producer = optional_text(&mut json, top(Field::Producer));
    in_order(certname, environment, values, stamp, producer)
}

// The change, or the first refusal.
fn in_order(
    certname: Result<Text, Refusal>,
    environment: Result<Option<Text>, Refusal>,
    values: Result<Members, Refusal>,
    stamp: Result<Moment, Refusal>,
    producer: Result<Option<Text>, Refusal>,
) -> Result<Change, Refusal>
    ensures { result ≡ facts_in_order certname environment values stamp producer }
{
    Ok(Change::Facts(FactsChange {
        certname: certname?,
        environment: environment?,
        values: values?,
        stamp: stamp?,
        producer: producer?,
    }))
}
