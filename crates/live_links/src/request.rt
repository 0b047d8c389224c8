//! Answers one request, with at most one call at the stage.
ghost use Rattle.std.specs.Prelude.{◌≡◌, ◌≢◌, ◌≤◌, ℕ, List, Option, [], true, false, length, IfOk, IfSome};
ghost use Rattle.core_ends.specs.core_course.Sight.{sight_of};
ghost use Rattle.core_ends.specs.core_sweeps.declared.answers.Swept.{Swept};
ghost use Rattle.http_routes.specs.history_spec.Lawful.{HasStamp};
ghost use Rattle.http_routes.specs.history_spec.Trace.{Trace};
ghost use Rattle.http_routes.specs.pattern_port.Refused.{Asked};
ghost use Rattle.http_routes.specs.Routed.{IsQueryRequest};
ghost use Rattle.http_routes.specs.routes.Answers.{submitted_answer};
ghost use Rattle.fleet_rows.specs.declared.submitted.Submitted.{Submitted};
ghost use Rattle.json_tree.specs.Limits.{most_payload};
ghost use Rattle.live_stage.specs.lock_calls.Calls.{Lasts};
ghost use Rattle.live_stage.specs.StageCalls.{was_submitted, was_swept, OneStageCall};
ghost use Rattle.live_stage.specs.Trace.{HasFirstIn, HasTrace};
ghost use Rattle.live_links.specs.Answers.{with_seen, swept_answer};
ghost use Rattle.live_links.specs.Headers.{lacks};
ghost use Rattle.live_links.specs.Lanes.{AnswersOne, AsksOne, LooksOne, SweepsOne};
ghost use Rattle.live_links.specs.QuerySteps.{IsNumbered, AnswersOver, AnswersLook};
ghost use Rattle.live_links.specs.Sweeps.{is_sweep};
ghost use Rattle.live_links.specs.declared.header.Least.TheVariants.{Bad};

use crate::answers::{answer_swept, with_seen};
use crate::header::{Least, lacks, least_of};
use crate::sweeps::{SweepAsked, asks_sweep, is_posted, sweep_asked};
use core_ends::Keeper;
use fleet_ports::Disk;
use fleet_rows::{Command, Kinds};
use http_routes::{Routed, answer_query, answer_submitted, error, parameters_in, route};
use http_spec::{Answer, Request};
use live_stage::{Snapshot, StageLock, StagePass, look, submit, sweep};
use pattern_port::Patterns;
use stamp_time::Moment;
use std::alloc::{AllocError, Global};
use std::sync::Wait;

// The same answer, which tells a number.
fn numbered(answer: Result<Answer, AllocError>, seen: u64) -> Result<Answer, AllocError>
    ensures { IsNumbered seen answer result }
{
    match answer {
        Ok(answer) => Ok(with_seen(answer, seen)),
        Err(fault) => Err(fault),
    }
}

// Submits a posted command.
fn submitted<D: Disk + Drop, K: Keeper + Drop, W: Wait>(
    lock: &StageLock<D, K>,
    rt: &W,
    alloc: Global,
    pass: &mut StagePass<D, K>,
    ends: bool,
    command: Command,
) -> Result<Answer, AllocError>
    requires pass { pass.old.lock ≡ lock.now.lock }
    requires payload { length command.payload ≤ most_payload }
    requires received { HasStamp command.received }
    ensures pass { (pass.new.lock ≡ pass.old.lock) × (pass.new.spares ≡ pass.old.spares) }
    ensures call { (came : Submitted) × (n : ℕ) × OneStageCall (sight_of D.Disk K.Keeper) K.generation (was_submitted command came n) pass.old pass.new
        × IfOk result (λ a. (a ≡ with_seen n (submitted_answer ends came)) × (a.code ≢ 500)) }
{
    let (came, seen) = submit(lock, rt, pass, command);
    numbered(answer_submitted(alloc, ends, came), seen)
}

// Sweeps the tables.
fn swept_by<D: Disk + Drop, K: Keeper + Drop, W: Wait>(
    lock: &StageLock<D, K>,
    rt: &W,
    alloc: Global,
    pass: &mut StagePass<D, K>,
    ends: bool,
    kinds: Kinds,
    m: Moment,
) -> Result<Answer, AllocError>
    requires pass { pass.old.lock ≡ lock.now.lock }
    requires stamp { HasStamp m }
    ensures pass { (pass.new.lock ≡ pass.old.lock) × (pass.new.spares ≡ pass.old.spares) }
    ensures call { (came : Swept) × (n : ℕ) × OneStageCall (sight_of D.Disk K.Keeper) K.generation (was_swept kinds m came n) pass.old pass.new
        × IfOk result (λ a. (a ≡ with_seen n (swept_answer ends came)) × (a.code ≢ 500)) }
{
    let (came, seen) = sweep(lock, rt, pass, kinds, m);
    numbered(answer_swept(alloc, ends, came), seen)
}

// Answers a request to the route that sweeps.
fn swept<D: Disk + Drop, K: Keeper + Drop, W: Wait>(
    lock: &StageLock<D, K>,
    rt: &W,
    alloc: Global,
    pass: &mut StagePass<D, K>,
    request: &Request,
) -> Result<Answer, AllocError>
    requires pass { pass.old.lock ≡ lock.now.lock }
    ensures pass { (pass.new.lock ≡ pass.old.lock) × (pass.new.spares ≡ pass.old.spares) }
    ensures answer { SweepsOne (sight_of D.Disk K.Keeper) K.generation request.now pass.old pass.new result }
{
    if !is_posted(request) {
        return error(alloc, request.ends, 405, b"bad method");
    }
    let list = parameters_in(alloc, request)?;
    match sweep_asked(list.as_slice()) {
        SweepAsked::Sweep(kinds, m) => swept_by(lock, rt, alloc, pass, request.ends, kinds, m),
        SweepAsked::Bad(text) => error(alloc, request.ends, 400, text),
    }
}

// Answers a query over a lane's own tables. The steps that they lack are applied first.
fn over<P: Patterns + Drop>(
    alloc: Global,
    snapshot: &mut Snapshot,
    patterns: &mut P,
    request: &Request,
    least: Least,
) -> Result<Answer, AllocError>
    requires query { IsQueryRequest request.now }
    ensures seen { snapshot.new.seen ≡ snapshot.old.seen }
    ensures lifetimes { snapshot.new.tables.ttls ≡ snapshot.old.tables.ttls }
    ensures trace { (trace : Trace) → HasTrace snapshot.old trace → HasTrace snapshot.new trace }
    ensures same { (p t : List ℕ) → P.says patterns.new p t ≡ P.says patterns.old p t }
    ensures answer { AnswersLook (AnswersOver (P.says patterns.old) snapshot.new) least snapshot.old.seen request.now
        (P.asked patterns.old) (P.asked patterns.new) (P.refusals patterns.old) (P.refusals patterns.new) result }
{
    let seen = snapshot.seen();
    if lacks(least, seen) {
        return numbered(error(alloc, request.ends, 503, b"not yet"), seen);
    }
    snapshot.catch_up(alloc)?;
    numbered(
        answer_query(alloc, request, snapshot.tables(), patterns),
        seen,
    )
}

// Looks at the live trace, and answers a query over the tables that this leaves.
fn looked_at<D: Disk + Drop, K: Keeper + Drop, P: Patterns + Drop, W: Wait>(
    lock: &StageLock<D, K>,
    rt: &W,
    alloc: Global,
    pass: &mut StagePass<D, K>,
    kept: &mut Option<Snapshot>,
    patterns: &mut P,
    request: &Request,
    least: Least,
) -> Result<Answer, AllocError>
    requires pass { pass.old.lock ≡ lock.now.lock }
    requires first { IfSome kept.old (λ s. Lasts (HasFirstIn (sight_of D.Disk K.Keeper) s) pass.old.seen) }
    requires query { IsQueryRequest request.now }
    ensures pass { (pass.new.lock ≡ pass.old.lock) × (pass.new.spares ≡ pass.old.spares) }
    ensures first { IfSome kept.new (λ s. Lasts (HasFirstIn (sight_of D.Disk K.Keeper) s) pass.new.seen) }
    ensures same { (p t : List ℕ) → P.says patterns.new p t ≡ P.says patterns.old p t }
    ensures answer { LooksOne (sight_of D.Disk K.Keeper) K.generation (P.says patterns.old) least request.now pass.old pass.new
        (P.asked patterns.old) (P.asked patterns.new) (P.refusals patterns.old) (P.refusals patterns.new) result }
{
    look(lock, rt, alloc, pass, kept)?;
    match kept {
        Some(snapshot) => over(alloc, snapshot, patterns, request, least),
        None => unreachable!(),
    }
}

// Answers a query.
fn asked<D: Disk + Drop, K: Keeper + Drop, P: Patterns + Drop, W: Wait>(
    lock: &StageLock<D, K>,
    rt: &W,
    alloc: Global,
    pass: &mut StagePass<D, K>,
    kept: &mut Option<Snapshot>,
    patterns: &mut P,
    request: &Request,
) -> Result<Answer, AllocError>
    requires pass { pass.old.lock ≡ lock.now.lock }
    requires first { IfSome kept.old (λ s. Lasts (HasFirstIn (sight_of D.Disk K.Keeper) s) pass.old.seen) }
    requires query { IsQueryRequest request.now }
    ensures pass { (pass.new.lock ≡ pass.old.lock) × (pass.new.spares ≡ pass.old.spares) }
    ensures first { IfSome kept.new (λ s. Lasts (HasFirstIn (sight_of D.Disk K.Keeper) s) pass.new.seen) }
    ensures same { (p t : List ℕ) → P.says patterns.new p t ≡ P.says patterns.old p t }
    ensures answer { AsksOne (sight_of D.Disk K.Keeper) K.generation (P.says patterns.old) request.now pass.old pass.new
        (P.asked patterns.old) (P.asked patterns.new) (P.refusals patterns.old) (P.refusals patterns.new) result }
{
    let least = least_of(request);
    match least {
        Least::Bad => error(alloc, request.ends, 400, b"bad seen"),
        _ => looked_at(lock, rt, alloc, pass, kept, patterns, request, least),
    }
}

// Answers a request to a route of the service.
fn routed<D: Disk + Drop, K: Keeper + Drop, P: Patterns + Drop, W: Wait>(
    lock: &StageLock<D, K>,
    rt: &W,
    alloc: Global,
    pass: &mut StagePass<D, K>,
    kept: &mut Option<Snapshot>,
    patterns: &mut P,
    now: Moment,
    request: Request,
) -> Result<Answer, AllocError>
    requires now { HasStamp now }
    requires body { length request.body ≤ most_payload }
    requires plain { is_sweep request.target ≡ false }
    requires pass { pass.old.lock ≡ lock.now.lock }
    requires first { IfSome kept.old (λ s. Lasts (HasFirstIn (sight_of D.Disk K.Keeper) s) pass.old.seen) }
    ensures pass { (pass.new.lock ≡ pass.old.lock) × (pass.new.spares ≡ pass.old.spares) }
    ensures first { IfSome kept.new (λ s. Lasts (HasFirstIn (sight_of D.Disk K.Keeper) s) pass.new.seen) }
    ensures same { (p t : List ℕ) → P.says patterns.new p t ≡ P.says patterns.old p t }
    ensures answer { AnswersOne (sight_of D.Disk K.Keeper) K.generation (P.says patterns.old) now request pass.old pass.new
        (P.asked patterns.old) (P.asked patterns.new) (P.refusals patterns.old) (P.refusals patterns.new) result }
{
    let ends = request.ends;
    let routed = route(alloc, request, now)?;
    match routed {
        Routed::Command(command) => submitted(lock, rt, alloc, pass, ends, command),
        Routed::Query(request) => asked(lock, rt, alloc, pass, kept, patterns, &request),
        Routed::Done(answer) => Ok(answer),
    }
}

/// Answers a request, unless memory runs out.
pub(crate) fn answered<D: Disk + Drop, K: Keeper + Drop, P: Patterns + Drop, W: Wait>(
    lock: &StageLock<D, K>,
    rt: &W,
    alloc: Global,
    pass: &mut StagePass<D, K>,
    kept: &mut Option<Snapshot>,
    patterns: &mut P,
    now: Moment,
    request: Request,
) -> Result<Answer, AllocError>
    requires now { HasStamp now }
    requires body { length request.body ≤ most_payload }
    requires pass { pass.old.lock ≡ lock.now.lock }
    requires first { IfSome kept.old (λ s. Lasts (HasFirstIn (sight_of D.Disk K.Keeper) s) pass.old.seen) }
    ensures pass { (pass.new.lock ≡ pass.old.lock) × (pass.new.spares ≡ pass.old.spares) }

    // What is kept stay tables of the first events of the live trace.
    ensures first { IfSome kept.new (λ s. Lasts (HasFirstIn (sight_of D.Disk K.Keeper) s) pass.new.seen) }
    ensures same { (p t : List ℕ) → P.says patterns.new p t ≡ P.says patterns.old p t }

    // A sweep, a command and a query are one hold each; any other request, and one with an error, is none.
    ensures answer { AnswersOne (sight_of D.Disk K.Keeper) K.generation (P.says patterns.old) now request pass.old pass.new
        (P.asked patterns.old) (P.asked patterns.new) (P.refusals patterns.old) (P.refusals patterns.new) result }
{
    if asks_sweep(&request) {
        swept(lock, rt, alloc, pass, &request)
    } else {
        routed(lock, rt, alloc, pass, kept, patterns, now, request)
    }
}
