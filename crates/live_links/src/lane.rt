//! Serves the links of a shared front, one after the other.
ghost use Rattle.std.specs.Prelude.{◌≡◌, ℕ, List, IfSome};
ghost use Rattle.core_ends.specs.core_course.Sight.{sight_of};
ghost use Rattle.http_routes.specs.history_spec.Lawful.{HasStamp};
ghost use Rattle.live_stage.specs.lock_calls.Calls.{Lasts};
ghost use Rattle.live_front.specs.Courses.{link_seen};
ghost use Rattle.live_stage.specs.Trace.{HasFirstIn};
ghost use Rattle.live_links.specs.Links.{ServesOne, ServesLane};

use crate::link::serve_live_link;
use core_ends::Keeper;
use fleet_ports::Disk;
use front_port::Front;
use live_front::{FrontLock, FrontPass, Taken, give_back, take};
use live_stage::{Snapshot, StageLock, StagePass};
use pattern_port::Patterns;
use stamp_time::Moment;
use std::alloc::Global;
use std::sync::Wait;

// Takes a link, serves it and gives it back. Answers whether there was one.
fn serve_one<D: Disk + Drop, K: Keeper + Drop, F: Front + Drop, P: Patterns + Drop, W: Wait>(
    lock: &StageLock<D, K>,
    front: &FrontLock<F>,
    rt: &W,
    alloc: Global,
    pass: &mut StagePass<D, K>,
    front_pass: &mut FrontPass<F>,
    kept: &mut Option<Snapshot>,
    patterns: &mut P,
    now: Moment,
) -> bool
    requires now { HasStamp now }
    requires pass { pass.old.lock ≡ lock.now.lock }
    requires front_pass { front_pass.old.lock ≡ front.now.lock }
    requires first { IfSome kept.old (λ s. Lasts (HasFirstIn (sight_of D.Disk K.Keeper) s) pass.old.seen) }
    ensures pass { (pass.new.lock ≡ pass.old.lock) × (pass.new.spares ≡ pass.old.spares) }
    ensures front_pass { (front_pass.new.lock ≡ front_pass.old.lock) × (front_pass.new.spares ≡ front_pass.old.spares) }
    ensures first { IfSome kept.new (λ s. Lasts (HasFirstIn (sight_of D.Disk K.Keeper) s) pass.new.seen) }
    ensures same { (p t : List ℕ) → P.says patterns.new p t ≡ P.says patterns.old p t }
    ensures served { ServesOne (sight_of D.Disk K.Keeper) K.generation (P.says patterns.old) now
        (link_seen F.Incoming.Source F.Outgoing.Sink) result front_pass.old front_pass.new pass.old pass.new
        (P.asked patterns.old) (P.asked patterns.new) (P.refusals patterns.old) (P.refusals patterns.new) }
{
    match take(front, rt, front_pass) {
        Taken::Link(mut link) => {
            let _end = serve_live_link(lock, rt, alloc, pass, kept, patterns, now, &mut link);
            give_back(front, rt, front_pass, link);
            true
        }
        _ => false,
    }
}

/// Takes links from the front, serves each until it ends and gives it back, until the front hands out no further one. Commands are
/// received at the moment `now`. `kept` are the lane's own tables, if it has some; they are kept up to date from link to link.
pub fn serve_lane<D: Disk + Drop, K: Keeper + Drop, F: Front + Drop, P: Patterns + Drop, W: Wait>(
    lock: &StageLock<D, K>,
    front: &FrontLock<F>,
    rt: &W,
    alloc: Global,
    pass: &mut StagePass<D, K>,
    front_pass: &mut FrontPass<F>,
    kept: &mut Option<Snapshot>,
    patterns: &mut P,
    now: Moment,
)
    requires now { HasStamp now }
    requires pass { pass.old.lock ≡ lock.now.lock }
    requires front_pass { front_pass.old.lock ≡ front.now.lock }
    requires first { IfSome kept.old (λ s. Lasts (HasFirstIn (sight_of D.Disk K.Keeper) s) pass.old.seen) }
    ensures pass { (pass.new.lock ≡ pass.old.lock) × (pass.new.spares ≡ pass.old.spares) }
    ensures front_pass { (front_pass.new.lock ≡ front_pass.old.lock) × (front_pass.new.spares ≡ front_pass.old.spares) }
    ensures first { IfSome kept.new (λ s. Lasts (HasFirstIn (sight_of D.Disk K.Keeper) s) pass.new.seen) }
    ensures same { (p t : List ℕ) → P.says patterns.new p t ≡ P.says patterns.old p t }

    // Each link that the lane took was served and then given back. Then the front had no further one.
    ensures served { ServesLane (sight_of D.Disk K.Keeper) K.generation (P.says patterns.old) now
        (link_seen F.Incoming.Source F.Outgoing.Sink) front_pass.old front_pass.new pass.old pass.new
        (P.asked patterns.old) (P.asked patterns.new) (P.refusals patterns.old) (P.refusals patterns.new) }
{
    'links: for _ in rt.forever() {
        if !serve_one(
            lock, front, rt, alloc, pass, front_pass, kept, patterns, now,
        ) {
            return;
        }
    }
}
