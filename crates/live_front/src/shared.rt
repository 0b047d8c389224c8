//! A front under a lock, and its calls.
//!
//! What happened is a list that contracts alone read (`Log`, without bytes). Beside it stand what the code needs of it: how many
//! links were handed out, and the end that the front told. The invariant ties these to the list, and says that the list leads from
//! the front as it came to the front as it is (`FrontCourse`).
ghost use Rattle.std.specs.Prelude.{◌≡◌, ◌≤◌, ◌↔◌, ◌∷◌, ◌++◌, [], true, length, Some};
ghost use Rattle.live_front.specs.Entries.{links_out, ends, listed, is_over, taken_entries, link_in, HasLink};
ghost use Rattle.live_front.specs.Courses.{FrontCourse, IfTaken, IsCalm, link_seen, sight_of};

use crate::entry::{End, Passing, Taken};
use front_port::{Arrived, Front, Link};
use http_server::Log;
use std::marker::Model;
use std::snapshot::Snapshot;
use turn_lock::Held;

/// A front, with what passed since it came under the lock.
#[derive(Drop)]
pub struct SharedFront<F: Front + Drop> {
    front: F,
    start: Snapshot<F>,
    // What passed, oldest first, beside a number that says nothing.
    passed: Log<Passing<F, Link<F::Incoming, F::Outgoing>>, u8>,
    // The number of entries that passed, modulo 2^64.
    entries: u64,
    // How many links were handed out.
    out: u32,
    limit: u32,
    end: Option<End>,
}

impl<F: Front + Drop> Model for SharedFront<F> {
    ghost use Rattle.std.specs.Prelude.{◌≡◌, ◌%◌, ◌^◌, ◌≤◌, length};
    ghost use Rattle.front_port.specs.declared.front.Link.{Link};
    ghost use Rattle.live_front.specs.Entries.{SharedView, entries_of, links_out, ends, listed};
    ghost use Rattle.live_front.specs.Courses.{FrontCourse, sight_of};

    ghost Value = { SharedView F (Link F.Incoming F.Outgoing) };

    ghost view = { λ g. record { start = g.start.value; limit = g.limit; passed = entries_of g.passed.items; front = g.front } };

    ghost invariant = { λ g. (g.entries ≡ length (entries_of g.passed.items) % 2 ^ 64)
        × (g.out ≡ length (links_out (entries_of g.passed.items)))
        × (g.out ≤ g.limit)
        × (ends (entries_of g.passed.items) ≡ listed g.end)
        × FrontCourse (sight_of F.Front F.Incoming.Source F.Outgoing.Sink) g.start.value (entries_of g.passed.items) g.front };
}

impl<F: Front + Drop> Held for SharedFront<F> {
    ghost use Rattle.live_front.specs.Entries.{list_of};

    type Entry = Passing<F, Link<F::Incoming, F::Outgoing>>;

    ghost list = { list_of };

    fn count(&self) -> u64 {
        self.entries.wrapping_add(1)
    }

    // No thread rests at this lock.
    fn news(&self) -> u64 {
        0
    }
}

// Notes that the link was handed out.
fn noted_out<F: Drop, L: Drop>(passed: &mut Log<Passing<F, L>, u8>, link: L) -> L
    ensures same { result ≡ link }
    ensures noted { passed.new.items ≡ passed.old.items ++ (Passing.Out link, 0) ∷ [] }
{
    let entry = Passing::Out(link);
    *passed = passed.and(&entry, &0);
    link_of(entry)
}

// Notes that the link was given back.
fn noted_back<F: Drop, L: Drop>(passed: &mut Log<Passing<F, L>, u8>, link: L) -> L
    ensures same { result ≡ link }
    ensures noted { passed.new.items ≡ passed.old.items ++ (Passing.Back link, 0) ∷ [] }
{
    let entry = Passing::Back(link);
    *passed = passed.and(&entry, &0);
    link_of(entry)
}

// The link of an entry.
fn link_of<F: Drop, L: Drop>(entry: Passing<F, L>) -> L
    requires { HasLink entry }
    ensures { link_in entry ≡ Some result }
{
    match entry {
        Passing::Out(link) | Passing::Back(link) => link,
        _ => unreachable!(),
    }
}

// Notes an entry.
fn note<F: Drop, L: Drop>(passed: &mut Log<Passing<F, L>, u8>, entry: Passing<F, L>)
    ensures { passed.new.items ≡ passed.old.items ++ (entry, 0) ∷ [] }
{
    *passed = passed.and(&entry, &0);
}

impl<F: Front + Drop> SharedFront<F> {
    /// A front that hands out so many links at most.
    pub(crate) fn new(front: F, limit: u32) -> SharedFront<F>
        ensures start { result.start ≡ front }
        ensures limit { result.limit ≡ limit }
        ensures passed { result.passed ≡ [] }
        ensures front { result.front ≡ front }
    {
        let start = Snapshot::of(&front);
        SharedFront {
            front,
            start,
            passed: Log::new(),
            entries: 0,
            out: 0,
            limit,
            end: None,
        }
    }

    /// The next link, unless the limit was reached or the front has told its end. It waits until a link comes.
    pub(crate) fn take(&mut self) -> Taken<Link<F::Incoming, F::Outgoing>>
        ensures start { (self.new.start ≡ self.old.start) × (self.new.limit ≡ self.old.limit) }
        ensures passed { self.new.passed ≡ self.old.passed ++ taken_entries result }
        ensures over { (result ≡ Taken.Over) ↔ (is_over self.old.limit self.old.passed ≡ true) }
        ensures calm { IfTaken result (λ link. IsCalm (link_seen F.Incoming.Source F.Outgoing.Sink link)) }
    {
        if self.end.is_some() || self.limit <= self.out {
            return Taken::Over;
        }
        match self.front.next() {
            Arrived::Link(link) => {
                self.out += 1;
                self.entries = self.entries.wrapping_add(1);
                Taken::Link(noted_out(&mut self.passed, link))
            }
            Arrived::Ended => {
                self.end = Some(End::Ended);
                self.entries = self.entries.wrapping_add(1);
                note(&mut self.passed, Passing::Ended);
                Taken::Ended
            }
            Arrived::Failed => {
                self.end = Some(End::Failed);
                self.entries = self.entries.wrapping_add(1);
                note(&mut self.passed, Passing::Failed);
                Taken::Failed
            }
        }
    }

    /// A link comes back.
    pub(crate) fn give_back(&mut self, link: Link<F::Incoming, F::Outgoing>)
        ensures start { (self.new.start ≡ self.old.start) × (self.new.limit ≡ self.old.limit) }
        ensures passed { self.new.passed ≡ self.old.passed ++ Passing.Back link ∷ [] }
    {
        self.entries = self.entries.wrapping_add(1);
        let link = noted_back(&mut self.passed, link);
        self.front.give_back(link);
    }

    /// The front, how many links it handed out, and the end that it told.
    pub(crate) fn into_parts(self) -> (F, u32, Option<End>)
        ensures front { result.0 ≡ self.front }
        ensures out { (result.1 ≡ length (links_out self.passed)) × (result.1 ≤ self.limit) }
        ensures end { ends self.passed ≡ listed result.2 }
        ensures course { FrontCourse (sight_of F.Front F.Incoming.Source F.Outgoing.Sink) self.start self.passed self.front }
    {
        let SharedFront {
            front,
            start: _,
            passed: _,
            entries: _,
            out,
            limit: _,
            end,
        } = self;
        (front, out, end)
    }
}
