//! Serves a link.
ghost use Rattle.std.specs.Prelude.{◌≡◌, ℕ, List, false, Some, None, IfSome};
ghost use Rattle.core_ends.specs.core_course.Sight.{sight_of};
ghost use Rattle.fleet_ports.specs.Counts.{Counts};
ghost use Rattle.http_front.specs.Link.{limited};
ghost use Rattle.http_front.specs.Next.{unread};
ghost use Rattle.http_routes.specs.history_spec.Lawful.{HasStamp};
ghost use Rattle.live_stage.specs.lock_calls.Calls.{Lasts};
ghost use Rattle.live_stage.specs.Trace.{HasFirstIn};
ghost use Rattle.live_links.specs.Lanes.{LaneGoes};
ghost use Rattle.live_links.specs.Links.{LiveNext, LiveEnds};

use crate::request::answered;
use core_ends::Keeper;
use fleet_ports::{Disk, Sink, Source};
use front_port::Link;
use http_front::{Incoming, NextRequest, next_request};
use http_routes::{LinkEnd, end_behind, end_of, error, fault_code, fault_text, send, send_memory};
use live_stage::{Snapshot, StageLock, StagePass};
use pattern_port::Patterns;
use stamp_time::Moment;
use std::alloc::Global;
use std::sync::Wait;

// Answers the next request. Returns None if the connection stays open.
fn serve_next<
    D: Disk + Drop,
    K: Keeper + Drop,
    S: Source + Drop,
    O: Sink + Drop,
    P: Patterns + Drop,
    W: Wait,
>(
    lock: &StageLock<D, K>,
    rt: &W,
    alloc: Global,
    pass: &mut StagePass<D, K>,
    kept: &mut Option<Snapshot>,
    patterns: &mut P,
    now: Moment,
    reading: &mut Incoming,
    link: &mut Link<S, O>,
) -> Option<LinkEnd>
    requires now { HasStamp now }
    requires pass { pass.old.lock ≡ lock.now.lock }
    requires first { IfSome kept.old (λ s. Lasts (HasFirstIn (sight_of D.Disk K.Keeper) s) pass.old.seen) }
    requires ongoing { reading.old.over ≡ false }
    ensures pass { (pass.new.lock ≡ pass.old.lock) × (pass.new.spares ≡ pass.old.spares) }
    ensures first { IfSome kept.new (λ s. Lasts (HasFirstIn (sight_of D.Disk K.Keeper) s) pass.new.seen) }
    ensures same { (p t : List ℕ) → P.says patterns.new p t ≡ P.says patterns.old p t }
    ensures served { LaneGoes (sight_of D.Disk K.Keeper) K.generation pass.old pass.new
        (P.asked patterns.old) (P.asked patterns.new) (P.refusals patterns.old) (P.refusals patterns.new)
        (λ final old new. LiveNext (sight_of D.Disk K.Keeper) (P.says patterns.old) now final result
        (unread reading.old (S.left link.old.incoming)) (unread reading.new (S.left link.new.incoming))
        (limited reading.new.taken (S.left link.new.incoming)) old new (O.held link.old.outgoing) (O.held link.new.outgoing)) }
    ensures ongoing { result ≡ None → reading.new.over ≡ false }
    ensures reads { Counts (S.fault_count link.old.incoming) (S.fault_count link.new.incoming) (result ≡ Some LinkEnd.ReadFault) }
    ensures writes { Counts (O.fault_count link.old.outgoing) (O.fault_count link.new.outgoing) (result ≡ Some LinkEnd.WriteFault) }
{
    match next_request(reading, &mut link.incoming) {
        NextRequest::Request(request) => {
            let ends = request.ends;
            let answer = answered(lock, rt, alloc, pass, kept, patterns, now, request);
            end_of(send(alloc, &mut link.outgoing, answer), ends)
        }
        NextRequest::Bad(fault) => {
            let answer = error(alloc, true, fault_code(fault), fault_text(fault));
            Some(end_behind(send(alloc, &mut link.outgoing, answer)))
        }
        NextRequest::Ended => Some(LinkEnd::Closed),
        NextRequest::ReadFault => Some(LinkEnd::ReadFault),
        NextRequest::Memory => Some(end_behind(send_memory(&mut link.outgoing))),
    }
}

/// Answers the requests of a link in order, until it ends. Commands are received at the moment `now`. Each request takes the stage's
/// lock at most once; reading and writing the link happen outside it. `kept` are the lane's own tables, if it has some.
pub fn serve_live_link<
    D: Disk + Drop,
    K: Keeper + Drop,
    S: Source + Drop,
    O: Sink + Drop,
    P: Patterns + Drop,
    W: Wait,
>(
    lock: &StageLock<D, K>,
    rt: &W,
    alloc: Global,
    pass: &mut StagePass<D, K>,
    kept: &mut Option<Snapshot>,
    patterns: &mut P,
    now: Moment,
    link: &mut Link<S, O>,
) -> LinkEnd
    requires now { HasStamp now }
    requires pass { pass.old.lock ≡ lock.now.lock }
    requires first { IfSome kept.old (λ s. Lasts (HasFirstIn (sight_of D.Disk K.Keeper) s) pass.old.seen) }
    ensures pass { (pass.new.lock ≡ pass.old.lock) × (pass.new.spares ≡ pass.old.spares) }
    ensures first { IfSome kept.new (λ s. Lasts (HasFirstIn (sight_of D.Disk K.Keeper) s) pass.new.seen) }
    ensures same { (p t : List ℕ) → P.says patterns.new p t ≡ P.says patterns.old p t }

    // The link's requests are answered in order, over tables of the first n events of the live trace, whatever other threads do
    // later. The lane's calls are those of the requests, and the numbers told never fall. At `Closed` all answers were written.
    ensures served { LaneGoes (sight_of D.Disk K.Keeper) K.generation pass.old pass.new
        (P.asked patterns.old) (P.asked patterns.new) (P.refusals patterns.old) (P.refusals patterns.new)
        (λ final old new. LiveEnds (sight_of D.Disk K.Keeper) (P.says patterns.old) now final result
        (S.left link.old.incoming) (S.left link.new.incoming) old new (O.held link.old.outgoing) (O.held link.new.outgoing)) }
    ensures reads { Counts (S.fault_count link.old.incoming) (S.fault_count link.new.incoming) (result ≡ LinkEnd.ReadFault) }
    ensures writes { Counts (O.fault_count link.old.outgoing) (O.fault_count link.new.outgoing) (result ≡ LinkEnd.WriteFault) }
{
    let mut reading = Incoming::new(alloc);
    'serving: for _served in 0..u64::MAX {
        match serve_next(
            lock,
            rt,
            alloc,
            pass,
            kept,
            patterns,
            now,
            &mut reading,
            link,
        ) {
            Some(end) => return end,
            None => {}
        }
    }
    // This line is unreachable: each request takes at least one byte, and a connection has at most 2^62.
    LinkEnd::Closed
}
