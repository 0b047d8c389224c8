//! Serves the connections of a front.
ghost use Rattle.std.specs.Prelude.{◌≡◌, ℕ, List, Some};
ghost use Rattle.http_routes.specs.fleet_ports.Counts.{Counts};
ghost use Rattle.http_routes.specs.fleet_tables.Stands.{Stands};
ghost use Rattle.http_routes.specs.history_spec.Lawful.{HasStamp};
ghost use Rattle.http_routes.specs.history_spec.Trace.{Trace};
ghost use Rattle.http_routes.specs.means_spec.OutRows.{lines_text};
ghost use Rattle.http_routes.specs.means_spec.World as spec;
ghost use Rattle.http_routes.specs.paging_text.Shown.{written_text};
ghost use Rattle.http_routes.specs.query_engine.Tables.{world_of};
ghost use Rattle.http_routes.specs.Course.{outside};
ghost use Rattle.http_routes.specs.Inbox.{Takes};
ghost use Rattle.link_serving.specs.Serving.{front_seen, IsTurn, ServesFront};

use crate::end::ServeEnd;
use front_port::{Arrived, Front};
use http_routes::{Inbox, serve_link};
use pattern_port::Patterns;
use stamp_time::Moment;
use std::alloc::Global;

// Serves the next connection. Returns an end if there is none.
fn serve_first<I: Inbox + Drop, F: Front + Drop, P: Patterns + Drop>(
    alloc: Global,
    inbox: &mut I,
    front: &mut F,
    patterns: &mut P,
    now: Moment,
) -> Option<ServeEnd>
    requires now { HasStamp now }
    ensures shown { I.shown inbox.new ≡ I.shown inbox.old }
    ensures same { (p t : List ℕ) → P.says patterns.new p t ≡ P.says patterns.old p t }
    ensures listens { F.listens front.new ≡ F.listens front.old }
    ensures served { IsTurn (Takes I.held I.does) (world_of (I.shown inbox.old) (P.says patterns.old)) written_text now result
        (front_seen (F.left front.old) (F.handed_out front.old) (F.given_back front.old))
        (front_seen (F.left front.new) (F.handed_out front.new) (F.given_back front.new))
        (outside inbox.old (P.asked patterns.old) (P.refusals patterns.old))
        (outside inbox.new (P.asked patterns.new) (P.refusals patterns.new)) }
    ensures cause { Counts (F.fault_count front.old) (F.fault_count front.new) (result ≡ Some ServeEnd.FrontFault) }
{
    match front.next() {
        Arrived::Link(mut link) => {
            let _end = serve_link(alloc, inbox, &mut link, patterns, now);
            front.give_back(link);
            None
        }
        Arrived::Ended => Some(ServeEnd::Done),
        Arrived::Failed => Some(ServeEnd::FrontFault),
    }
}

/// Serves up to `links` connections, one after the other: takes each from the front, serves it until it ends, and gives it back.
/// Commands are received at the moment `now`. The call waits while no connection comes.
pub fn serve_front<I: Inbox + Drop, F: Front + Drop, P: Patterns + Drop>(
    alloc: Global,
    inbox: &mut I,
    front: &mut F,
    patterns: &mut P,
    now: Moment,
    links: u32,
) -> ServeEnd
    requires now { HasStamp now }
    ensures shown { I.shown inbox.new ≡ I.shown inbox.old }
    ensures same { (p t : List ℕ) → P.says patterns.new p t ≡ P.says patterns.old p t }
    ensures listens { F.listens front.new ≡ F.listens front.old }

    // Each connection that was handed out was served and then given back. At `Done` there were `links` of them, or none remains.
    // This holds for the tables as they are, and for each history that they stand for.
    ensures served { ServesFront (Takes I.held I.does) (world_of (I.shown inbox.old) (P.says patterns.old)) written_text now result links
        (front_seen (F.left front.old) (F.handed_out front.old) (F.given_back front.old))
        (front_seen (F.left front.new) (F.handed_out front.new) (F.given_back front.new))
        (outside inbox.old (P.asked patterns.old) (P.refusals patterns.old))
        (outside inbox.new (P.asked patterns.new) (P.refusals patterns.new)) }
    ensures stands { (history : Trace) → Stands (I.shown inbox.old) history
        → ServesFront (Takes I.held I.does) (spec.world_of (I.shown inbox.old).ttls history (P.says patterns.old)) lines_text now result links
        (front_seen (F.left front.old) (F.handed_out front.old) (F.given_back front.old))
        (front_seen (F.left front.new) (F.handed_out front.new) (F.given_back front.new))
        (outside inbox.old (P.asked patterns.old) (P.refusals patterns.old))
        (outside inbox.new (P.asked patterns.new) (P.refusals patterns.new)) }
    ensures cause { Counts (F.fault_count front.old) (F.fault_count front.new) (result ≡ ServeEnd.FrontFault) }
{
    'serving: for _served in 0..links {
        match serve_first(alloc, inbox, front, patterns, now) {
            Some(end) => return end,
            None => {}
        }
    }
    ServeEnd::Done
}
