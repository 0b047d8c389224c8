//! Selects the rows of a query by reading all rows.
ghost use Rattle.std.specs.Prelude.{◌≡◌, ◌<◌, ℕ, List};
ghost use Rattle.query_engine.specs.fleet_ports.Counts.{Counts};
ghost use Rattle.query_engine.specs.fleet_tables.Stands.{Stands};
ghost use Rattle.query_engine.specs.fleet_tables.history_spec.Trace.{Trace};
ghost use Rattle.query_engine.specs.query_plan.means_spec.World as spec;
ghost use Rattle.query_engine.specs.query_plan.Plan.{level_patterns};
ghost use Rattle.query_engine.specs.Answers.{MatchPicked, IsBadPattern, AreAsked};
ghost use Rattle.query_engine.specs.Courses.{IsCourse};
ghost use Rattle.query_engine.specs.Tables.{world_of};

use pattern_port::Patterns;
use query_engine::{Picked, QueryFault, Reading, Steps, Tables, select_reading};
use query_plan::ast_tree::Query;
use std::alloc::Global;
use std::marker::Brand;
use std::sync::ledger::{Blank, Ledger};

fn select_in<P: Patterns, L: Ledger>(
    alloc: Global,
    blank: Blank,
    tables: &Tables,
    query: &Query,
    patterns: &mut P,
) -> Result<Picked, QueryFault>
    requires name { blank.name ≡ L.name }
    requires parts { blank.parts ≡ L.parts }
    requires some { 0 < blank.parts }
    ensures same { (p t : List ℕ) → P.says patterns.new p t ≡ P.says patterns.old p t }
    ensures answer { MatchPicked (world_of tables.now (P.says patterns.old)) query.now result }
    ensures stands { (history : Trace) → Stands tables.now history
        → MatchPicked (spec.world_of tables.now.ttls history (P.says patterns.old)) query.now result }
    ensures cause { Counts (P.refusals patterns.old) (P.refusals patterns.new) (IsBadPattern result) }
    ensures asked { AreAsked (level_patterns query.now) (P.asked patterns.old) (P.asked patterns.new) result }
    ensures course { IsCourse (level_patterns query.now) (P.course patterns.old) (P.course patterns.new) result }
{
    let mut steps = Steps::<L>::begin(blank);
    select_reading(alloc, tables, query, patterns, Reading::All, &mut steps)
}

/// The rows that a query selects from the tables, in order. All rows of each level are read.
pub fn select_plain<P: Patterns>(
    alloc: Global,
    tables: &Tables,
    query: &Query,
    patterns: &mut P,
) -> Result<Picked, QueryFault>
    ensures same { (p t : List ℕ) → P.says patterns.new p t ≡ P.says patterns.old p t }
    ensures answer { MatchPicked (world_of tables.now (P.says patterns.old)) query.now result }
    ensures stands { (history : Trace) → Stands tables.now history
        → MatchPicked (spec.world_of tables.now.ttls history (P.says patterns.old)) query.now result }
    ensures cause { Counts (P.refusals patterns.old) (P.refusals patterns.new) (IsBadPattern result) }
    ensures asked { AreAsked (level_patterns query.now) (P.asked patterns.old) (P.asked patterns.new) result }
    ensures course { IsCourse (level_patterns query.now) (P.course patterns.old) (P.course patterns.new) result }
{
    select_in::<P, Brand>(alloc, Blank::new(1), tables, query, patterns)
}
