//! Threads append to a log under a turn lock.
ghost use Rattle.std.specs.Prelude.{◌≡◌, ◌+◌, ◌≤◌, [], ◌∷◌, ◌++◌, All, List, ℕ, vec_len, IfOk, OnOk, OnErr};
ghost use Rattle.turn_lock.specs.Seen.{Appends};

use crate::said::says;
use std::alloc::{AllocError, AllocFailed, Global};
use std::sync::Wait;
use std::thread::{Threads, for_each_mut, join, yield_now};
use turn_lock::{Held, Pass, SplitFault, TurnLock};

/// Stands for the list of its entries, each with the worker that appended it and the number of its call.
#[derive(Drop)]
struct Log {
    entries: Vec<(u64, u64)>,
}

impl Held for Log {
    type Entry = (u64, u64);

    ghost list = { λ l. l.entries.items };

    fn count(&self) -> u64 {
        self.entries.len() as u64
    }

    fn news(&self) -> u64 {
        self.entries.len() as u64
    }
}

impl Log {
    fn new(alloc: Global) -> Self
        ensures { result.entries.items ≡ [] }
    {
        Log {
            entries: Vec::new(alloc),
        }
    }

    fn append(&mut self, worker: u64, call: u64) -> Result<(), AllocError>
        ensures ok { OnOk result (self.new.entries.items ≡ self.old.entries.items ++ (worker, call) ∷ []) }
        ensures err { OnErr result (self.new.entries.items ≡ self.old.entries.items) }
    {
        self.entries.push((worker, call))?;
        Ok(())
    }

    fn stay(&mut self)
        ensures { self.new.entries.items ≡ self.old.entries.items }
    {}

    fn into_entries(self) -> Vec<(u64, u64)> {
        self.entries
    }
}

/// One hold that appends an entry.
fn append<W: Wait>(
    rt: &W,
    lock: &TurnLock<Log>,
    pass: &mut Pass<Log>,
    worker: u64,
    call: u64,
) -> Result<(), AllocError>
    requires pass { pass.old.lock ≡ lock.now.lock }
    ensures lock { pass.new.lock ≡ pass.old.lock }
    ensures spares { pass.new.spares ≡ pass.old.spares }
    ensures ok { OnOk result (Appends ((worker, call) ∷ []) pass.old pass.new) }
    ensures err { OnErr result (Appends [] pass.old pass.new) }
{
    lock.hold(rt, pass, |log| log.append(worker, call))
}

/// One hold that appends none.
fn stay<W: Wait>(rt: &W, lock: &TurnLock<Log>, pass: &mut Pass<Log>)
    requires pass { pass.old.lock ≡ lock.now.lock }
    ensures lock { pass.new.lock ≡ pass.old.lock }
    ensures spares { pass.new.spares ≡ pass.old.spares }
    ensures none { Appends [] pass.old pass.new }
{
    lock.hold(rt, pass, |log| log.stay());
}

/// So many holds, each of which appends an entry. It tells how many were made.
fn append_some<W: Wait>(
    rt: &W,
    lock: &TurnLock<Log>,
    pass: &mut Pass<Log>,
    worker: u64,
    calls: u64,
) -> u64
    requires pass { pass.old.lock ≡ lock.now.lock }
    ensures lock { pass.new.lock ≡ pass.old.lock }
    ensures spares { pass.new.spares ≡ pass.old.spares }
{
    for call in 0..calls {
        if append(rt, lock, pass, worker, call).is_err() {
            return call;
        }
    }
    calls
}

/// The same with a pass that comes back.
fn append_all<W: Wait>(
    rt: &W,
    lock: &TurnLock<Log>,
    mut pass: Pass<Log>,
    worker: u64,
    calls: u64,
) -> (Pass<Log>, u64)
    requires pass { pass.lock ≡ lock.now.lock }
    ensures lock { result.0.lock ≡ lock.now.lock }
    ensures spares { result.0.spares ≡ pass.spares }
{
    let made = append_some(rt, lock, &mut pass, worker, calls);
    (pass, made)
}

/// A lock over an empty log, with so many seats.
fn new_lock(alloc: Global, seats: u32) -> Result<(TurnLock<Log>, Pass<Log>), AllocError>
    requires some { 1 ≤ seats }
    requires few { seats ≤ 66 }
    ensures pass { IfOk result (λ p. p.1.lock ≡ p.0.lock) }
    ensures spares { IfOk result (λ p. p.1.spares + 1 ≡ seats) }
    ensures seats { IfOk result (λ p. p.0.seats ≡ seats) }
{
    match TurnLock::new(alloc, Log::new(alloc), seats) {
        Ok(made) => Ok(made),
        Err((_log, fault)) => Err(fault),
    }
}

/// Whether each worker's entries stand in its order, as many as it made calls, and no others.
fn is_in_order(entries: &[(u64, u64)], workers: u32, calls: u64) -> bool {
    if entries.len() as u64 != u64::from(workers).wrapping_mul(calls) {
        return false;
    }
    let mut next = [0u64; 64];
    for &(worker, call) in entries {
        let Some(place) = next.get_mut(worker as usize) else {
            return false;
        };
        if *place != call {
            return false;
        }
        *place = call.wrapping_add(1);
    }
    next.iter()
        .take(workers as usize)
        .all(|&made| made == calls)
}

fn one_appends<W: Wait>(rt: &W, alloc: Global) -> Result<Vec<(u64, u64)>, AllocError> {
    let (lock, mut pass) = new_lock(alloc, 1)?;
    append(rt, &lock, &mut pass, 0, 7)?;
    append(rt, &lock, &mut pass, 0, 8)?;
    Ok(lock.close(pass).into_entries())
}

#[test]
fn one_pass_appends_in_its_order(rt: HostRuntime) -> Result<(), AllocError> {
    let entries = one_appends(&rt, rt.alloc())?;
    says(&rt, rt.alloc(), entries, "[(0, 7), (0, 8)]")
}

/// Whether two threads append each entry once, in each one's order.
fn two_append<R: Threads + Wait + Sync>(rt: &R, alloc: Global) -> Result<bool, AllocError> {
    let (lock, mut first) = new_lock(alloc, 2)?;
    let Ok(second) = lock.split(&mut first) else {
        return Ok(false);
    };
    let ((mut first, _), (second, _)) = join(
        rt,
        || append_all(rt, &lock, first, 0, 1000),
        || append_all(rt, &lock, second, 1, 1000),
    );
    lock.join(&mut first, second);
    let entries = lock.close(first).into_entries();
    Ok(is_in_order(entries.as_slice(), 2, 1000))
}

#[test]
fn two_threads_append_each_entry_once_and_in_each_ones_order(
    rt: HostRuntime,
) -> Result<(), AllocError> {
    let ordered = two_append(&rt, rt.alloc())?;
    says(&rt, rt.alloc(), ordered, "true")
}

/// Rests until there was news so often, and tells how often there was.
fn rest_until<W: Wait>(rt: &W, lock: &TurnLock<Log>, news: u64) -> u64 {
    let mut now = lock.news();
    for _ in rt.forever() {
        if now >= news {
            return now;
        }
        now = lock.rest(rt, now);
    }
    unreachable!()
}

/// How many calls were made and how often there was news for who rests, the count, and the entries that are left.
fn one_rests<R: Threads + Wait + Sync>(
    rt: &R,
    alloc: Global,
) -> Result<(u64, u64, u64, usize), AllocError> {
    let (lock, pass) = new_lock(alloc, 1)?;
    let ((mut pass, made), seen) = join(
        rt,
        || append_all(rt, &lock, pass, 0, 100),
        || rest_until(rt, &lock, 100),
    );
    let count = lock.count(&mut pass);
    let entries = lock.close(pass).into_entries();
    Ok((made, seen, count, entries.len()))
}

#[test]
fn one_rests_until_another_has_appended(rt: HostRuntime) -> Result<(), AllocError> {
    let told = one_rests(&rt, rt.alloc())?;
    says(&rt, rt.alloc(), told, "(100, 100, 100, 100)")
}

/// Lets others run for a while, and wakes all.
fn wake_later(lock: &TurnLock<Log>) {
    for _ in 0..1000u32 {
        yield_now();
    }
    lock.wake_all();
}

/// How often there was news for two that rest until a call.
fn two_rest<R: Threads + Wait + Sync>(rt: &R, alloc: Global) -> Result<(u64, u64), AllocError> {
    let (lock, _) = new_lock(alloc, 1)?;
    let (news, ()) = join(
        rt,
        || join(rt, || rest_until(rt, &lock, 1), || rest_until(rt, &lock, 1)),
        || wake_later(&lock),
    );
    Ok(news)
}

#[test]
fn two_that_rest_are_woken_by_a_call(rt: HostRuntime) -> Result<(), AllocError> {
    let news = two_rest(&rt, rt.alloc())?;
    says(&rt, rt.alloc(), news, "(1, 1)")
}

/// The news and the count at the start, behind an entry, behind a hold without one and behind a call, and what a rest answers then.
fn news_of<W: Wait>(rt: &W, alloc: Global) -> Result<[u64; 10], AllocError> {
    let (lock, mut pass) = new_lock(alloc, 1)?;
    let start = (lock.news(), lock.count(&mut pass));
    append(rt, &lock, &mut pass, 0, 0)?;
    let one = (lock.news(), lock.count(&mut pass));
    stay(rt, &lock, &mut pass);
    let same = (lock.news(), lock.count(&mut pass));
    lock.wake_all();
    let woken = (lock.news(), lock.count(&mut pass));
    let rests = (lock.rest(rt, 0), lock.rest(rt, 1));
    Ok([
        start.0, start.1, one.0, one.1, same.0, same.1, woken.0, woken.1, rests.0, rests.1,
    ])
}

#[test]
fn what_is_appended_is_news_and_so_is_a_call(rt: HostRuntime) -> Result<(), AllocError> {
    let news = news_of(&rt, rt.alloc())?;
    says(&rt, rt.alloc(), news, "[0, 0, 1, 1, 1, 1, 2, 1, 2, 2]")
}

/// Whether the second split of two seats finds no seat, and one does once a pass was joined.
fn splits(alloc: Global) -> Result<(bool, bool), AllocError> {
    let (lock, mut first) = new_lock(alloc, 2)?;
    let Ok(second) = lock.split(&mut first) else {
        return Ok((false, false));
    };
    let full = matches!(lock.split(&mut first), Err(SplitFault::NoSeat));
    lock.join(&mut first, second);
    Ok((full, lock.split(&mut first).is_ok()))
}

#[test]
fn the_second_split_of_two_seats_finds_no_seat(rt: HostRuntime) -> Result<(), AllocError> {
    let told = splits(rt.alloc())?;
    says(&rt, rt.alloc(), told, "(true, true)")
}

fn split_and_joined<W: Wait>(rt: &W, alloc: Global) -> Result<Vec<(u64, u64)>, AllocError> {
    let (lock, mut first) = new_lock(alloc, 2)?;
    append(rt, &lock, &mut first, 0, 0)?;
    let Ok(mut second) = lock.split(&mut first) else {
        return Err(AllocError);
    };
    append(rt, &lock, &mut second, 1, 0)?;
    append(rt, &lock, &mut first, 0, 1)?;
    lock.join(&mut first, second);
    append(rt, &lock, &mut first, 0, 2)?;
    Ok(lock.close(first).into_entries())
}

#[test]
fn a_history_goes_on_through_a_split_and_a_join(rt: HostRuntime) -> Result<(), AllocError> {
    let entries = split_and_joined(&rt, rt.alloc())?;
    says(&rt, rt.alloc(), entries, "[(0, 0), (1, 0), (0, 1), (0, 2)]")
}

/// A pass for each spare, as far as there are spares.
fn split_all(
    alloc: Global,
    lock: &TurnLock<Log>,
    pass: &mut Pass<Log>,
) -> Result<Vec<Pass<Log>>, AllocError>
    requires pass { pass.old.lock ≡ lock.now.lock }
    ensures pass { pass.new.lock ≡ lock.now.lock }
    ensures passes { IfOk result (λ v. All (λ p. (p.lock ≡ lock.now.lock) × (p.spares ≡ 0)) v.items) }
    ensures spares { IfOk result (λ v. pass.new.spares + vec_len v ≡ pass.old.spares) }
{
    let mut passes = Vec::with_capacity(alloc, 66)?;
    'splits: for _ in 0..66 {
        let Ok(new) = lock.split(pass) else {
            break;
        };
        if let Err(failed) = passes.push(new) {
            let AllocFailed { value: new } = failed;
            lock.join(pass, new);
            break;
        }
    }
    Ok(passes)
}

/// So many holds of each pass, which is then joined.
fn use_and_join_all<W: Wait>(
    rt: &W,
    lock: &TurnLock<Log>,
    pass: &mut Pass<Log>,
    mut passes: Vec<Pass<Log>>,
    calls: u64,
)
    requires pass { pass.old.lock ≡ lock.now.lock }
    requires passes { All (λ p. (p.lock ≡ lock.now.lock) × (p.spares ≡ 0)) passes.items }
    ensures pass { pass.new.lock ≡ lock.now.lock }
    ensures spares { pass.new.spares ≡ pass.old.spares + vec_len passes }
{
    'joins: while let Some(mut one) = passes.pop() {
        append_some(rt, lock, &mut one, passes.len() as u64, calls);
        lock.join(pass, one);
    }
}

/// How many passes there are beside the first, and how many entries all append; none where there is one more pass.
fn most_seats<W: Wait>(rt: &W, alloc: Global) -> Result<(usize, usize), AllocError> {
    let (lock, mut pass) = new_lock(alloc, 66)?;
    let passes = split_all(alloc, &lock, &mut pass)?;
    let count = passes.len();
    let Err(SplitFault::NoSeat) = lock.split(&mut pass) else {
        return Ok((count, 0));
    };
    use_and_join_all(rt, &lock, &mut pass, passes, 1);
    append(rt, &lock, &mut pass, 65, 0)?;
    let entries = lock.close(pass).into_entries();
    Ok((count, entries.len()))
}

#[test]
fn sixty_six_seats_are_taken_and_no_more(rt: HostRuntime) -> Result<(), AllocError> {
    let told = most_seats(&rt, rt.alloc())?;
    says(&rt, rt.alloc(), told, "(65, 66)")
}

/// So many holds of each pass, in threads of their own.
fn append_by_all<R: Threads + Wait + Sync>(
    rt: &R,
    lock: &TurnLock<Log>,
    passes: &mut [Pass<Log>],
    calls: u64,
)
    requires passes { All (λ p. (p.lock ≡ lock.now.lock) × (p.spares ≡ 0)) passes.old }
    ensures passes { All (λ p. (p.lock ≡ lock.now.lock) × (p.spares ≡ 0)) passes.new }
{
    for_each_mut(
        rt,
        passes,
        64,
        &|worker, pass|
            requires { pass.old.lock ≡ lock.now.lock }
            ensures { (pass.new.lock ≡ pass.old.lock) × (pass.new.spares ≡ pass.old.spares) }
        {
            append_some(rt, lock, pass, worker as u64, calls);
        },
    );
}

/// Whether so many workers append each entry once, in each one's order.
fn is_in_turns<R: Threads + Wait + Sync>(
    rt: &R,
    alloc: Global,
    workers: u32,
    calls: u64,
) -> Result<bool, AllocError>
    requires some { 1 ≤ workers }
    requires few { workers ≤ 64 }
{
    let (lock, mut pass) = new_lock(alloc, workers + 1)?;
    let mut passes = split_all(alloc, &lock, &mut pass)?;
    append_by_all(rt, &lock, passes.as_mut_slice(), calls);
    use_and_join_all(rt, &lock, &mut pass, passes, 0);
    let entries = lock.close(pass).into_entries();
    Ok(is_in_order(entries.as_slice(), workers, calls))
}

#[test]
fn any_number_of_workers_takes_turns(rt: HostRuntime) -> Result<(), AllocError> {
    let alloc = rt.alloc();
    let told = [
        is_in_turns(&rt, alloc, 1, 1000)?,
        is_in_turns(&rt, alloc, 4, 1000)?,
        is_in_turns(&rt, alloc, 8, 1000)?,
        is_in_turns(&rt, alloc, 64, 100)?,
    ];
    says(&rt, alloc, told, "[true, true, true, true]")
}
