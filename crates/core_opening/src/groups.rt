//! Reads the groups of the commands that are pending after the last record.
//!
//! Most commands in a log end in it. So a payload is read for its group only if the command is still pending.
ghost use Rattle.std.specs.Prelude.{◌≡◌, ◌<◌, ◌++◌, ◌∷◌, [], length, map, OnOk, IfOk};
ghost use Rattle.core_state.specs.core_spec.Pending.{NoneIsWornOut};
ghost use Rattle.core_state.specs.supersede_core.Waiting.{AreBelow, Rises};
ghost use Rattle.core_opening.specs.Replayed.{grouped};
ghost use Rattle.fleet_rows.specs.Limits.{most_pending};

use command_key::key;
use core_spec::Entry;
use std::alloc::{AllocError, Global};
use supersede_core::Pending;

/// Adds the command in its group.
fn add(alloc: Global, pending: &mut Pending, entry: &Entry) -> Result<(), AllocError>
    requires above { AreBelow entry.now.receipt pending.old }
    requires attempts { entry.now.attempts < 16 }
    requires room { length pending.old < most_pending }
    ensures { OnOk result (pending.new ≡ pending.old ++ grouped entry.now ∷ []) }
{
    let group = key(alloc, entry.command.command())?;
    let command = entry.command.share()?;
    pending.add(entry.receipt, command, group, entry.attempts)?;
    Ok(())
}

/// The same commands, each in its group.
pub(crate) fn with_groups(alloc: Global, waiting: &Pending) -> Result<Pending, AllocError>
    requires rises { Rises waiting.now }
    requires few { NoneIsWornOut waiting.now }
    ensures { IfOk result (λ pending. pending ≡ map grouped waiting.now) }
{
    let mut pending = Pending::new(alloc);
    'grouping: for at in 0..waiting.count() as usize {
        add(alloc, &mut pending, waiting.at(at))?;
    }
    Ok(pending)
}
