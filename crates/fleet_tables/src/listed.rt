//! Makes tables from the list of a checkpoint, which more commands may follow.
ghost use Rattle.std.specs.Prelude.{◌≡◌, List, OnOk, OnErr, IfOk, IfSome};
ghost use Rattle.std.specs.List.{AllByRecursion};
ghost use Rattle.checkpoint_spec.specs.stamp_time.Range.{IsStampMoment};
ghost use Rattle.checkpoint_spec.specs.fleet_rows.declared.applied.Applied.{Applied as Command};
ghost use Rattle.checkpoint_spec.specs.history_spec.Lawful.{IsChange};
ghost use Rattle.checkpoint_spec.specs.history_spec.Trace.{Trace, IsTrace, applied_as};
ghost use Rattle.checkpoint_spec.specs.table_machine.Steps.{apply};
ghost use Rattle.checkpoint_spec.specs.Histories.{checkpoint, goes_on, with_events};
ghost use Rattle.checkpoint_spec.specs.Lists.{all_applied, all_marked, marked, table_of_list};
ghost use Rattle.fleet_tables.specs.Listed.{HasLawfulChange, HasMoment, IsLawfulList, with_sweeps};
ghost use Rattle.fleet_tables.specs.Stands.{Stands};

use crate::tables::Tables;
use fleet_rows::stamp_time::Moment;
use fleet_rows::{Applied, Change, Mark, StoreList};
use std::alloc::{AllocError, Global};

impl Tables {
    /// Sets the greatest moments of sweeps of expiry and of reports. It takes no memory.
    pub fn set_sweeps(&mut self, expire: Option<Moment>, retain: Option<Moment>)
        requires expire { IfSome expire IsStampMoment }
        requires retain { IfSome retain IsStampMoment }
        ensures { self.new ≡ with_sweeps expire retain self.old }
    {
        self.state.set_sweeps(expire, retain);
    }

    /// Sets the activity of the mark's node, and adds the node if it is missing. On an error the tables are unchanged. More than
    /// 2^62 nodes, which no memory holds, count as missing memory.
    pub fn mark(&mut self, mark: &Mark) -> Result<(), AllocError>
        requires { IfSome mark.now.active IsStampMoment }
        ensures ok { OnOk result (self.new ≡ marked mark.now self.old) }
        ensures same { OnErr result (self.new ≡ self.old) }
    {
        self.state.mark(self.alloc, mark)
    }

    /// The tables that a list leads to: its sweeps and marks, then its commands in order. The list is copied. If the list is a
    /// history's checkpoint, the tables stand for that history; if more commands follow, for the history with these commands.
    pub fn from_list(alloc: Global, list: &StoreList) -> Result<Tables, AllocError>
        requires { IsLawfulList list.now }
        ensures value { IfOk result (λ tables. tables ≡ table_of_list list.now) }
        ensures stands { (history : Trace) → IsTrace history → list.now ≡ checkpoint list.now.ttls history
            → IfOk result (λ tables. Stands tables history) }
        ensures further { (history : Trace) (xs : List Command) → IsTrace (with_events xs history)
            → list.now ≡ goes_on xs (checkpoint list.now.ttls history)
            → IfOk result (λ tables. Stands tables (with_events xs history)) }
    {
        let mut tables = Tables::new(alloc, list.ttls);
        tables.set_sweeps(list.expire, list.retain);
        mark_each(&mut tables, list.marks.as_slice())?;
        apply_each(&mut tables, alloc, list.applied.as_slice())?;
        Ok(tables)
    }
}

// Applies the marks in their order.
fn mark_each(tables: &mut Tables, marks: &[Mark]) -> Result<(), AllocError>
    requires { AllByRecursion HasMoment marks.now }
    ensures { OnOk result (tables.new ≡ all_marked marks.now tables.old) }
{
    'marking: for mark in marks {
        tables.mark(mark)?;
    }
    Ok(())
}

fn apply_now(
    tables: &mut Tables,
    receipt: u64,
    received: Option<Moment>,
    change: Change,
) -> Result<(), AllocError>
    requires { IsChange change }
    ensures { OnOk result (tables.new ≡ apply (applied_as receipt received change) tables.old) }
{
    let room = tables.reserve(&change)?;
    tables.apply(room, receipt, received, change);
    Ok(())
}

fn apply_copy(tables: &mut Tables, alloc: Global, command: &Applied) -> Result<(), AllocError>
    requires { IsChange command.now.change }
    ensures { OnOk result (tables.new ≡ apply command.now tables.old) }
{
    let change = command.change.copy(alloc)?;
    apply_now(tables, command.receipt, command.received, change)
}

// Applies the commands in their order.
fn apply_each(tables: &mut Tables, alloc: Global, commands: &[Applied]) -> Result<(), AllocError>
    requires { AllByRecursion HasLawfulChange commands.now }
    ensures { OnOk result (tables.new ≡ all_applied commands.now tables.old) }
{
    'applying: for command in commands {
        apply_copy(tables, alloc, command)?;
    }
    Ok(())
}
