//! Serves connections over a core.
ghost use Rattle.std.specs.Prelude.{◌≡◌, ℕ, List};
ghost use Rattle.core_ends.specs.fleet_ports.Counts.{Counts};
ghost use Rattle.core_ends.specs.fleet_tables.Stands.{Stands};
ghost use Rattle.core_ends.specs.history_spec.Lawful.{HasStamp};
ghost use Rattle.core_ends.specs.core_course.Sight.{sight_of};
ghost use Rattle.link_serving.specs.history_spec.Trace.{Trace};
ghost use Rattle.link_serving.specs.means_spec.OutRows.{lines_text};
ghost use Rattle.link_serving.specs.means_spec.World as spec;
ghost use Rattle.link_serving.specs.paging_text.Shown.{written_text};
ghost use Rattle.link_serving.specs.query_engine.Tables.{world_of};
ghost use Rattle.link_serving.specs.http_routes.Course.{outside};
ghost use Rattle.link_serving.specs.Serving.{front_seen};
ghost use Rattle.core_inbox.specs.Intake.{ServesCore};

use crate::inbox::CoreInbox;
use core_ends::{Core, Keeper};
use fleet_ports::Disk;
use front_port::Front;
use link_serving::{ServeEnd, serve_front};
use pattern_port::Patterns;
use stamp_time::Moment;
use std::alloc::Global;

/// The result of serving.
#[derive(Drop)]
pub struct Served<D: Disk + Drop, K: Keeper + Drop> {
    /// The core.
    pub core: Core<D, K>,
    /// How the serving ended.
    pub end: ServeEnd,
}

/// Serves this number of connections, one after the other. Each is taken from the listener, its requests are answered until it
/// ends, and it is given back. Commands are received at the moment `now`. While there is no connection, the call waits for one.
pub fn serve_links<D: Disk + Drop, K: Keeper + Drop, F: Front + Drop, P: Patterns + Drop>(
    alloc: Global,
    core: Core<D, K>,
    front: &mut F,
    patterns: &mut P,
    now: Moment,
    links: u32,
) -> Served<D, K>
    requires now { HasStamp now }
    ensures tables { result.core.tables ≡ core.tables }
    ensures same { (p t : List ℕ) → P.says patterns.new p t ≡ P.says patterns.old p t }
    ensures listens { F.listens front.new ≡ F.listens front.old }

    // Each connection that was handed out was served over the core, and then given back. At `Done` that is the number asked for,
    // or no connection is left. Only the commands that got a receipt were added to the core. The answers are those of the tables,
    // for each history that they stand for.
    ensures served { ServesCore (sight_of D.Disk K.Keeper)
        (world_of core.tables (P.says patterns.old)) written_text now result.end links
        (front_seen (F.left front.old) (F.handed_out front.old) (F.given_back front.old))
        (front_seen (F.left front.new) (F.handed_out front.new) (F.given_back front.new))
        (outside core (P.asked patterns.old) (P.refusals patterns.old))
        (outside result.core (P.asked patterns.new) (P.refusals patterns.new)) }
    ensures stands { (history : Trace) → Stands core.tables history
        → ServesCore (sight_of D.Disk K.Keeper)
        (spec.world_of core.tables.ttls history (P.says patterns.old)) lines_text now result.end links
        (front_seen (F.left front.old) (F.handed_out front.old) (F.given_back front.old))
        (front_seen (F.left front.new) (F.handed_out front.new) (F.given_back front.new))
        (outside core (P.asked patterns.old) (P.refusals patterns.old))
        (outside result.core (P.asked patterns.new) (P.refusals patterns.new)) }
    ensures cause { Counts (F.fault_count front.old) (F.fault_count front.new) (result.end ≡ ServeEnd.FrontFault) }
{
    let mut inbox = CoreInbox::new(core);
    let end = serve_front(alloc, &mut inbox, front, patterns, now, links);
    Served {
        core: inbox.into_core(),
        end,
    }
}
