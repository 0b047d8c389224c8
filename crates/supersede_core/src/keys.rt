//! Makes the text of a group, which indexes use as the key.
ghost use Rattle.std.specs.Prelude.{◌≡◌, ◌+◌, [], ◌∷◌, IfOk};
ghost use Rattle.entry_tree.specs.fleet_rows.Change.{kind_number};
ghost use Rattle.supersede_core.specs.Index.{IsKey};

use entry_tree::GroupKey;
use entry_tree::fleet_rows::{Group, Kind};
use entry_tree::stamp_time::Moment;
use std::alloc::{AllocError, Global};

/// The certname, followed by one digit for the kind. None for a command without a group.
pub(crate) fn key_of(
    alloc: Global,
    group: &Option<(Group, Moment)>,
) -> Result<Option<GroupKey>, AllocError>
    ensures { IfOk result (λ key. IsKey key group.now) }
{
    let Some((group, stamp)) = group else {
        return Ok(None);
    };
    let mut text = String::from_str(alloc, group.certname.as_str())?;
    text.push_str(digit(group.kind))?;
    let key = GroupKey {
        text,
        stamp: stamp.as_nanosecond(),
    };
    Ok(Some(key))
}

fn digit(kind: Kind) -> &'static str
    ensures { result.now ≡ (48 + kind_number kind) ∷ [] }
{
    match kind {
        Kind::Facts => "0",
        Kind::Catalog => "1",
        Kind::Report => "2",
        Kind::Deactivate => "3",
        Kind::Expiration => "4",
    }
}
