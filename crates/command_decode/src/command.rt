//! Decodes a command to its change.
ghost use Rattle.std.specs.Prelude.{◌≡◌, ◌≢◌, ◌<◌, ◌^◌, length, Err, IfOk};
ghost use Rattle.wire_catalog.specs.fleet_rows.Change.{change_kind};
ghost use Rattle.wire_catalog.specs.fleet_rows.declared.refusal.Refusal.TheVariants.{BadVersion};
ghost use Rattle.wire_catalog.specs.wire_spec.Decode.{version_of};
ghost use Rattle.wire_laws.specs.history_spec.Lawful.{IsChange};
ghost use Rattle.command_decode.specs.declared.fault.DecodeFault.TheVariants.{Refused};
ghost use Rattle.command_decode.specs.Answers.{DecodedAs};

use crate::fault::DecodeFault;
use crate::payload::change;
use json_read::read;
use std::alloc::Global;
use wire_catalog::fleet_rows::{Change, Command, Kind, Refusal};

/// The accepted version of each wire format.
fn version_taken(kind: Kind) -> u32
    ensures { result ≡ version_of kind }
{
    match kind {
        Kind::Facts => 5,
        Kind::Catalog => 9,
        Kind::Report => 8,
        Kind::Deactivate => 3,
        Kind::Expiration => 1,
    }
}

/// The change of the command, or its refusal. The checks run in this order: the version; the payload is JSON (RFC 8259) and nests
/// at most 127 levels; its value is an object; the fields of the kind's wire format.
pub fn decode(alloc: Global, command: &Command) -> Result<Change, DecodeFault>
    // The payload's length fits 32 bits.
    requires counted { length command.now.payload < 2 ^ 32 }
    ensures answer { DecodedAs result command.now }
    ensures kind { IfOk result (λ change. change_kind change ≡ command.now.kind) }
    ensures lawful { IfOk result IsChange }
    ensures version { command.now.version ≢ version_of command.now.kind → result ≡ Err (Refused BadVersion) }
{
    if command.version != version_taken(command.kind) {
        return Err(DecodeFault::Refused(Refusal::BadVersion));
    }
    let json = read(alloc, command.payload.as_slice())?;
    Ok(change(alloc, command.kind, json)?)
}
