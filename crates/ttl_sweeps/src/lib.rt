//! Sweeps the tables by lifetimes, after PuppetDB's settings `node-ttl`, `node-purge-ttl` and `report-ttl`.
//!
//! [`sweep`] expires nodes, then purges nodes, then drops reports: those of the three that are asked for. The tables stand for
//! the history with the sweep afterwards. It takes no memory, and costs one step for each kept node and report.
//!
//! The clauses of [`sweep`]: exactly the sweep of `table_machine` (`step`), and the tables then stand for the history with it
//! (`stands`).
#![tactic(auto)]

ghost use Rattle.std.specs.Prelude.{◌≡◌, ◌∷◌};
ghost use Rattle.fleet_tables.specs.stamp_time.Range.{IsStampMoment};
ghost use Rattle.fleet_tables.specs.history_spec.Trace.{Trace, swept};
ghost use Rattle.fleet_tables.specs.table_machine.Steps.{sweep};
ghost use Rattle.fleet_tables.specs.Stands.{Stands};

use fleet_tables::Tables;
use fleet_tables::fleet_rows::Kinds;
use fleet_tables::stamp_time::Moment;

/// One sweep at this moment: expires nodes, then purges nodes, then removes reports, as far as each is asked for.
pub fn sweep(tables: &mut Tables, kinds: Kinds, m: Moment)
    requires { IsStampMoment m }
    ensures step { tables.new ≡ sweep kinds m tables.old }
    ensures stands { (history : Trace) → Stands tables.old history → Stands tables.new (swept kinds m ∷ history) }
{
    follow(tables, kinds, m);
}

fn follow(tables: &mut Tables, kinds: Kinds, m: Moment)
    requires { IsStampMoment m }
    ensures { tables.new ≡ sweep kinds m tables.old }
{
    if kinds.expire {
        tables.expire(m);
    }
    if kinds.purge {
        tables.purge(m);
    }
    if kinds.reports {
        tables.retain(m);
    }
}

// Re-exports for the crates above.
pub use fleet_tables;
pub use fleet_tables::stamp_time;
