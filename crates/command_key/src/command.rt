//! Reads the certname and the stamp off a payload.
ghost use Rattle.std.specs.Prelude.{◌≡◌, IfOk};
ghost use Rattle.core_spec.specs.json_read.Heads.{head_told};
ghost use Rattle.core_spec.specs.Commands.{key_of, keyed, verdict_of};

use core_spec::fleet_rows::{Command, Group, Kind};
use core_spec::json_read::peek;
use core_spec::json_tree::Text;
use core_spec::stamp_time::Moment;
use std::alloc::{AllocError, Global};

/// The certname and the stamp, if the payload names both.
fn head_at(alloc: Global, payload: &[u8]) -> Result<Option<(Text, Moment)>, AllocError>
    ensures value { IfOk result (λ head. head ≡ head_told (verdict_of payload.now)) }
{
    let head = peek(alloc, payload)?;
    Ok(head)
}

/// The group and the stamp of a command of this kind, with this head.
fn key_with(kind: Kind, head: Option<(Text, Moment)>) -> Option<(Group, Moment)>
    ensures value { result ≡ keyed kind head }
{
    let (certname, stamp) = match head {
        None => return None,
        Some(head) => head,
    };
    if kind == Kind::Report {
        return None;
    }
    Some((Group { certname, kind }, stamp))
}

/// The group and the producer timestamp of the command, if it has them. The payload is read once.
pub fn key(alloc: Global, command: &Command) -> Result<Option<(Group, Moment)>, AllocError>
    ensures value { IfOk result (λ key. key ≡ key_of command.now) }
{
    let head = head_at(alloc, command.payload.as_slice())?;
    Ok(key_with(command.kind, head))
}
