//! The calls of threads, each in one hold of the lock.
ghost use Rattle.std.specs.Prelude.{◌≡◌, ◌≤◌, ◌+◌, ◌↔◌, ◌∷◌, ◌++◌, [], ℕ, true, IfOk, IfErr};
ghost use Rattle.lock_calls.specs.Calls.{OneCall};
ghost use Rattle.live_front.specs.declared.entry.Passing.TheVariants.{Opened};
ghost use Rattle.live_front.specs.Entries.{list_of, list_over, taken_entries};
ghost use Rattle.live_front.specs.Courses.{IfTaken, IsCalm, link_seen, sight_of};
ghost use Rattle.live_front.specs.FrontCalls.{took, gave, entries_added, FrontCallDoes, ClosedFrom};

use crate::entry::{End, Passing, Taken};
use crate::shared::SharedFront;
use front_port::{Front, Link};
use std::alloc::{AllocError, Global};
use std::sync::Wait;
use turn_lock::{Pass, TurnLock};

/// The lock that holds a front.
pub type FrontLock<F: Front + Drop> = TurnLock<SharedFront<F>>;

/// A thread's right to take links and to give them back.
pub type FrontPass<F: Front + Drop> = Pass<SharedFront<F>>;

/// A front that was taken out of its lock.
#[derive(Drop)]
pub struct Closed<F> {
    pub front: F,
    /// How many links were handed out.
    pub out: u32,
    /// The end that the front told, if it did.
    pub end: Option<End>,
}

/// Puts a front behind a lock, from which it hands out at most `limit` links. Returns the lock and its first pass, which has all
/// seats but one as spares. If memory runs out, the front comes back.
pub fn share<F: Front + Drop>(
    alloc: Global,
    front: F,
    limit: u32,
    seats: u32,
) -> Result<(FrontLock<F>, FrontPass<F>), (F, AllocError)>
    requires some { 1 ≤ seats }
    requires few { seats ≤ 66 }
    ensures opening { IfOk result (λ p. p.0.opening ≡ Opened front limit ∷ []) }
    ensures seats { IfOk result (λ p. p.0.seats ≡ seats) }
    ensures pass { IfOk result (λ p. (p.1.lock ≡ p.0.lock) × (p.1.seen ≡ Opened front limit ∷ []) × (p.1.holds ≡ [])) }
    ensures spares { IfOk result (λ p. p.1.spares + 1 ≡ seats) }
    ensures err { IfErr result (λ e. e.0 ≡ front) }
{
    match TurnLock::new(alloc, SharedFront::new(front, limit), seats) {
        Ok((lock, pass)) => Ok((lock, pass)),
        Err((shared, fault)) => {
            let (front, _, _) = shared.into_parts();
            Err((front, fault))
        }
    }
}

/// Asks the front for its next link, in one hold, and waits until one comes. The front isn't asked if the limit was reached or if
/// it has told its end.
pub fn take<F: Front + Drop, W: Wait>(
    lock: &FrontLock<F>,
    rt: &W,
    pass: &mut FrontPass<F>,
) -> Taken<Link<F::Incoming, F::Outgoing>>
    requires pass { pass.old.lock ≡ lock.now.lock }
    ensures pass { (pass.new.lock ≡ pass.old.lock) × (pass.new.spares ≡ pass.old.spares) }
    ensures call { OneCall entries_added FrontCallDoes (took result) pass.old pass.new }

    // No fault was counted on the link yet.
    ensures calm { IfTaken result (λ link. IsCalm (link_seen F.Incoming.Source F.Outgoing.Sink link)) }
{
    lock.hold(
        rt,
        pass,
        |shared| -> Taken<Link<F::Incoming, F::Outgoing>>
            ensures list { list_of shared.new ≡ list_of shared.old ++ taken_entries result }
            ensures over { (result ≡ Taken.Over) ↔ (list_over (list_of shared.old) ≡ true) }
            ensures calm { IfTaken result (λ link. IsCalm (link_seen F.Incoming.Source F.Outgoing.Sink link)) }
        { shared.take() },
    )
}

/// Gives a link back to the front, in one hold. It allocates nothing.
pub fn give_back<F: Front + Drop, W: Wait>(
    lock: &FrontLock<F>,
    rt: &W,
    pass: &mut FrontPass<F>,
    link: Link<F::Incoming, F::Outgoing>,
)
    requires pass { pass.old.lock ≡ lock.now.lock }
    ensures pass { (pass.new.lock ≡ pass.old.lock) × (pass.new.spares ≡ pass.old.spares) }
    ensures call { OneCall entries_added FrontCallDoes (gave link) pass.old pass.new }
{
    lock.hold(
        rt,
        pass,
        move |shared|
            ensures list { list_of shared.new ≡ list_of shared.old ++ Passing.Back link ∷ [] }
        { shared.give_back(link) },
    );
}

/// Takes the front out, after all other passes were joined into this one. It allocates nothing.
pub fn close<F: Front + Drop>(lock: FrontLock<F>, pass: FrontPass<F>) -> Closed<F>
    requires pass { pass.lock ≡ lock.lock }
    requires all { pass.spares + 1 ≡ lock.seats }
    // If the lock is that of a front that was shared with this limit: what passed, and of which calls.
    ensures { (front : F) (limit : ℕ) → lock.opening ≡ Opened front limit ∷ []
        → ClosedFrom (sight_of F.Front F.Incoming.Source F.Outgoing.Sink) front limit pass result.front result.out result.end }
{
    let (front, out, end) = lock.close(pass).into_parts();
    Closed { front, out, end }
}
