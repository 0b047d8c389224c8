//! Encodes and decodes the commands within records.
ghost use Rattle.std.specs.Prelude.{◌≡◌, ◌++◌, OnOk, IfOk};
ghost use Rattle.record_fields.specs.fleet_rows.Change.{kind_number};
ghost use Rattle.record_fields.specs.record_spec.Parts.{command_text};
ghost use Rattle.record_fields.specs.record_spec.Queue.{IsCommand};
ghost use Rattle.record_fields.specs.Reading.{Shows};
ghost use Rattle.queue_records.specs.Reading.{command_at};
ghost use Rattle.queue_records.specs.Raw.{command_with};

use record_fields::fleet_rows::{Command, Kind, Shared};
use record_fields::json_tree::Bytes;
use record_fields::stamp_time::Moment;
use record_fields::{put_bytes, put_moment, put_u32, take_bytes, take_kind, take_moment, take_u32};
use std::alloc::{AllocError, Global};

/// Reads a command. Returns its fields, with the payload borrowed from the bytes, and the bytes after it.
#[tactic(auto, unfolding(crate::specs::Reading::command_at))]
pub(crate) fn take_command(bytes: &[u8]) -> Option<(Kind, u32, Moment, &[u8], &[u8])>
    ensures { Shows (λ x. (command_with x.0 x.1 x.2 x.3.now, x.4.now)) result (command_at bytes.now) }
{
    let (kind, rest) = take_kind(bytes)?;
    let (version, rest) = take_u32(rest)?;
    let (received, rest) = match take_moment(rest) {
        None => return None,
        Some(read) => read,
    };
    let (payload, rest) = take_bytes(rest)?;
    Some((kind, version, received, payload, rest))
}

/// The command with its own copy of the payload.
pub(crate) fn own(
    alloc: Global,
    kind: Kind,
    version: u32,
    received: Moment,
    payload: &[u8],
) -> Result<Shared, AllocError>
    ensures { IfOk result (λ c. c ≡ command_with kind version received payload.now) }
{
    let payload = Bytes::from_slice(alloc, payload)?;
    Shared::new(
        alloc,
        Command {
            kind,
            version,
            received,
            payload,
        },
    )
}

fn number_of(kind: Kind) -> u8
    ensures { result ≡ kind_number kind }
{
    kind as u8
}

pub(crate) fn put_command(out: &mut Vec<u8>, command: &Command) -> Result<(), AllocError>
    requires { IsCommand command.now }
    ensures { OnOk result (out.new.items ≡ out.old.items ++ command_text command.now) }
{
    out.push(number_of(command.kind))?;
    put_u32(out, command.version)?;
    put_moment(out, command.received)?;
    put_bytes(out, command.payload.as_slice())?;
    Ok(())
}
