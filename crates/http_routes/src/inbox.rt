//! Defines where posted commands go.
ghost use Rattle.std.specs.Prelude.{◌≡◌, ◌≤◌, length};
ghost use Rattle.routes_spec.specs.fleet_rows.declared.command.Command.{Command};
ghost use Rattle.routes_spec.specs.history_spec.Lawful.{HasStamp};
ghost use Rattle.routes_spec.specs.table_machine.Table.{Table};
ghost use Rattle.fleet_rows.specs.declared.submitted.Submitted.{Submitted};
ghost use Rattle.http_routes.specs.Inbox.{Held, IsSubmit};
ghost use Rattle.json_tree.specs.Limits.{most_payload};

use fleet_rows::{Command, Entity};
use fleet_tables::Tables;
use json_tree::Text;
use routes_spec::Submitted;
use std::alloc::AllocError;

/// Takes commands, and has tables that its calls don't change.
pub trait Inbox {
    /// The tables that answer queries.
    ghost shown: { Self → Table };

    /// The state as contracts see it: the commands taken with their receipts, the last receipt, the numbers of pending commands
    /// and of their bytes. It also has the log's size in bytes, whether the inbox is down, and a count of faults.
    ghost held: { Self → Held };

    /// The inbox's own description of a step: a submitted command, its answer, and the inbox before and after.
    ghost does: { Command → Submitted → Self → Self → Type 0 };

    /// The tables.
    fn tables(&self) -> &Tables
        ensures { result.now ≡ shown self.now };

    /// Computes what the rows of an entity show, as far as it is missing (`Tables::prepare`). The inbox is unchanged for contracts,
    /// also without memory.
    fn prepare(&mut self, entity: Entity) -> Result<(), AllocError>
        ensures { self.new ≡ self.old };

    /// Computes it for the node with this certname alone (`Tables::prepare_node`).
    fn prepare_node(&mut self, entity: Entity, certname: &Text) -> Result<(), AllocError>
        ensures { self.new ≡ self.old };

    /// Takes a command under the next receipt, or says why not. After `QueueFault` the fault count has risen and the inbox may be
    /// down. Any other refusal leaves the inbox unchanged.
    fn submit(&mut self, command: Command) -> Submitted
        requires payload { length command.payload ≤ most_payload }
        requires received { HasStamp command.received }
        ensures shown { shown self.new ≡ shown self.old }
        ensures submits { IsSubmit command result (held self.old) (held self.new) }
        ensures does { does command result self.old self.new };
}
