//! Tables that commands were applied to.
ghost use Rattle.std.specs.Prelude.{IfOk};
ghost use Rattle.command_decode.specs.history_spec.Lawful.{IsChange};

use crate::wrong::Wrong;
use command_decode::{DecodeFault, decode};
use fleet_rows::{Change, Command, Kind, Ttls};
use fleet_tables::Tables;
use json_tree::Bytes;
use stamp_time::Moment;
use std::alloc::Global;
use test_support::parted;

fn kind_of(word: &str) -> Kind {
    match word {
        "facts" => Kind::Facts,
        "catalog" => Kind::Catalog,
        "report" => Kind::Report,
        "deactivate" => Kind::Deactivate,
        _ => Kind::Expiration,
    }
}

// The version that is taken.
fn version(kind: Kind) -> u32 {
    match kind {
        Kind::Facts => 5,
        Kind::Catalog => 9,
        Kind::Report => 8,
        Kind::Deactivate => 3,
        Kind::Expiration => 1,
    }
}

fn change(alloc: Global, kind: Kind, payload: &[u8]) -> Result<Change, Wrong>
    ensures { IfOk result IsChange }
{
    if payload.len() >= 4_294_967_296 {
        return Err(Wrong::NoCommand);
    }
    let command = Command {
        kind,
        version: version(kind),
        received: Moment::from_nanosecond(0),
        payload: Bytes::from_slice(alloc, payload)?,
    };
    match decode(alloc, &command) {
        Ok(change) => Ok(change),
        Err(DecodeFault::Refused(_)) => Err(Wrong::NoCommand),
        Err(DecodeFault::Memory) => Err(Wrong::Memory),
    }
}

// Applies a command that isn't refused.
fn apply(
    alloc: Global,
    tables: &mut Tables,
    receipt: u64,
    kind: Kind,
    payload: &str,
) -> Result<(), Wrong> {
    let change = change(alloc, kind, payload.as_bytes())?;
    let room = tables.reserve(&change)?;
    tables.apply(room, receipt, None, change);
    Ok(())
}

/// Tables that these commands were applied to, in their order: one a line, by its kind and its payload.
pub(crate) fn tables_of(alloc: Global, fleet: &str) -> Result<Tables, Wrong> {
    let mut tables = Tables::new(alloc, Ttls::default_lifetimes());
    for (at, line) in fleet.split('\n').enumerate() {
        let (word, payload) = parted(line, " ");
        if !line.is_empty() {
            apply(alloc, &mut tables, at as u64 + 1, kind_of(word), payload)?;
        }
    }
    Ok(tables)
}
