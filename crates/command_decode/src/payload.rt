//! Decodes the JSON value of a payload.
ghost use Rattle.std.specs.Prelude.{◌≡◌, ◌≢◌, Err};
ghost use Rattle.json_read.specs.text_spec.Json.{object, members_of};
ghost use Rattle.wire_catalog.specs.fleet_rows.declared.command.Kind.TheVariants as kinds;
ghost use Rattle.wire_catalog.specs.fleet_rows.declared.refusal.Refusal.TheVariants.{NotObject};
ghost use Rattle.wire_catalog.specs.wire_fields.declared.fault.WireFault.TheVariants.{Refused, Memory};
ghost use Rattle.json_read.specs.json_tree.Tree.{json_of};
ghost use Rattle.wire_catalog.specs.wire_spec.Table.{object_change, value_change};
ghost use Rattle.wire_catalog.specs.wire_fields.Answers.{Gives};
ghost use Rattle.wire_catalog.specs.wire_spec.Counted.{IsCounted};
ghost use Rattle.command_decode.specs.Answers.{IsNoObject};

use json_read::json_tree::{Json, Members};
use std::alloc::Global;
use wire_catalog::catalog;
use wire_catalog::fleet_rows::{Change, Kind, Refusal};
use wire_catalog::wire_fields::WireFault;
use wire_control::{deactivate, expiration};
use wire_facts::facts;
use wire_report::report;

// The change of the value, which must be an object. Only a catalog allocates.
pub(crate) fn change(alloc: Global, kind: Kind, json: Json) -> Result<Change, WireFault>
    requires { IsCounted (json_of json) }
    ensures value { Gives result (value_change kind (json_of json)) }
    ensures no_object { IsNoObject (json_of json) → result ≡ Err (Refused NotObject) }
    ensures memory { kind ≢ kinds.Catalog → result ≢ Err Memory }
{
    match json {
        Json::Map(members) => object(alloc, kind, members),
        Json::Null | Json::Bool(_) | Json::Num(_) | Json::Text(_) | Json::List(_) => {
            Err(WireFault::Refused(Refusal::NotObject))
        }
    }
}

// The change of the object, by the table of the kind's wire format. Only a catalog allocates.
fn object(alloc: Global, kind: Kind, json: Members) -> Result<Change, WireFault>
    requires { IsCounted (object (members_of json)) }
    ensures value { Gives result (object_change kind json) }
    ensures memory { kind ≢ kinds.Catalog → result ≢ Err Memory }
{
    match kind {
        Kind::Facts => Ok(facts(json)?),
        Kind::Catalog => catalog(alloc, json),
        Kind::Report => report(alloc, json),
        Kind::Deactivate => Ok(deactivate(json)?),
        Kind::Expiration => Ok(expiration(json)?),
    }
}
