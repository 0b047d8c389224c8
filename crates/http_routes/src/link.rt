//! Serves a connection.
ghost use Rattle.std.specs.Prelude.{◌≡◌, ◌≤◌, ℕ, List, length, false, Some, None};
ghost use Rattle.routes_spec.specs.fleet_ports.Counts.{Counts};
ghost use Rattle.routes_spec.specs.fleet_tables.Stands.{Stands};
ghost use Rattle.routes_spec.specs.history_spec.Lawful.{HasStamp};
ghost use Rattle.routes_spec.specs.history_spec.Trace.{Trace};
ghost use Rattle.http_front.specs.Link.{limited};
ghost use Rattle.http_front.specs.Next.{unread};
ghost use Rattle.routes_spec.specs.means_spec.OutRows.{lines_text};
ghost use Rattle.routes_spec.specs.means_spec.World as spec;
ghost use Rattle.paging_text.specs.Shown.{written_text};
ghost use Rattle.query_engine.specs.Tables.{world_of};
ghost use Rattle.http_routes.specs.Inbox.{Takes};
ghost use Rattle.http_routes.specs.Course.{outside, end_behind, end_of, IsAnswered, IsServedNext, Serves, ServedSoFar};
ghost use Rattle.json_tree.specs.Limits.{most_payload};

use crate::answers::{answer_submitted, error};
use crate::inbox::Inbox;
use crate::preparing::answer_prepared;
use crate::routed::{Routed, route};
use crate::sending::{Sent, fault_code, fault_text, send, send_memory};
use fleet_ports::{Sink, Source};
use front_port::Link;
use http_front::{Incoming, NextRequest, next_request};
use http_spec::{Answer, Request};
use pattern_port::Patterns;
use stamp_time::Moment;
use std::alloc::{AllocError, Global};

/// How serving a connection ended.
#[derive(Clone, Copy, PartialEq, Eq, Debug)]
pub enum LinkEnd {
    /// The connection's bytes ended, or an answer ended it. Every answer was written.
    Closed,
    /// Reading from the connection failed.
    ReadFault,
    /// Writing to the connection failed.
    WriteFault,
}

// Answers a request, unless memory runs out.
fn answered<I: Inbox + Drop, P: Patterns + Drop>(
    alloc: Global,
    inbox: &mut I,
    patterns: &mut P,
    now: Moment,
    request: Request,
) -> Result<Answer, AllocError>
    requires now { HasStamp now }
    requires body { length request.body ≤ most_payload }
    ensures shown { I.shown inbox.new ≡ I.shown inbox.old }
    ensures same { (p t : List ℕ) → P.says patterns.new p t ≡ P.says patterns.old p t }
    ensures answer { IsAnswered (Takes I.held I.does) (world_of (I.shown inbox.old) (P.says patterns.old)) written_text now request
        (outside inbox.old (P.asked patterns.old) (P.refusals patterns.old))
        (outside inbox.new (P.asked patterns.new) (P.refusals patterns.new)) result }
{
    let ends = request.ends;
    let routed = route(alloc, request, now)?;
    match routed {
        Routed::Command(command) => answer_submitted(alloc, ends, inbox.submit(command)),
        Routed::Query(request) => answer_prepared(alloc, inbox, patterns, &request),
        Routed::Done(answer) => Ok(answer),
    }
}

/// How a connection ends after its last answer.
pub fn end_behind(sent: Sent) -> LinkEnd
    ensures { result ≡ end_behind sent }
{
    match sent {
        Sent::Whole | Sent::Memory => LinkEnd::Closed,
        Sent::Failed => LinkEnd::WriteFault,
    }
}

/// How a connection ends after an answer, or None if it stays open. `ends` is that of the request.
pub fn end_of(sent: Sent, ends: bool) -> Option<LinkEnd>
    ensures { result ≡ end_of sent ends }
{
    match sent {
        Sent::Whole => if ends { Some(LinkEnd::Closed) } else { None },
        Sent::Memory => Some(LinkEnd::Closed),
        Sent::Failed => Some(LinkEnd::WriteFault),
    }
}

// Answers the next request. Returns None if the connection stays open.
fn serve_next<I: Inbox + Drop, S: Source + Drop, K: Sink + Drop, P: Patterns + Drop>(
    alloc: Global,
    inbox: &mut I,
    reading: &mut Incoming,
    link: &mut Link<S, K>,
    patterns: &mut P,
    now: Moment,
) -> Option<LinkEnd>
    requires now { HasStamp now }
    requires ongoing { reading.old.over ≡ false }
    ensures shown { I.shown inbox.new ≡ I.shown inbox.old }
    ensures same { (p t : List ℕ) → P.says patterns.new p t ≡ P.says patterns.old p t }
    ensures served { IsServedNext (Takes I.held I.does) (world_of (I.shown inbox.old) (P.says patterns.old)) written_text now result
        (unread reading.old (S.left link.old.incoming)) (unread reading.new (S.left link.new.incoming))
        (outside inbox.old (P.asked patterns.old) (P.refusals patterns.old))
        (outside inbox.new (P.asked patterns.new) (P.refusals patterns.new))
        (K.held link.old.outgoing) (K.held link.new.outgoing) }
    ensures so_far { result ≡ Some LinkEnd.ReadFault
        → ServedSoFar (Takes I.held I.does) (world_of (I.shown inbox.old) (P.says patterns.old)) written_text now
        (unread reading.old (S.left link.old.incoming)) (limited reading.new.taken (S.left link.new.incoming))
        (outside inbox.old (P.asked patterns.old) (P.refusals patterns.old))
        (outside inbox.new (P.asked patterns.new) (P.refusals patterns.new))
        (K.held link.old.outgoing) (K.held link.new.outgoing) }
    ensures ongoing { result ≡ None → reading.new.over ≡ false }
    ensures reads { Counts (S.fault_count link.old.incoming) (S.fault_count link.new.incoming) (result ≡ Some LinkEnd.ReadFault) }
    ensures writes { Counts (K.fault_count link.old.outgoing) (K.fault_count link.new.outgoing) (result ≡ Some LinkEnd.WriteFault) }
{
    match next_request(reading, &mut link.incoming) {
        NextRequest::Request(request) => {
            let ends = request.ends;
            let answer = answered(alloc, inbox, patterns, now, request);
            end_of(send(alloc, &mut link.outgoing, answer), ends)
        }
        NextRequest::Bad(fault) => {
            let answer = error(alloc, true, fault_code(fault), fault_text(fault));
            Some(end_behind(send(alloc, &mut link.outgoing, answer)))
        }
        NextRequest::Ended => Some(LinkEnd::Closed),
        NextRequest::ReadFault => Some(LinkEnd::ReadFault),
        NextRequest::Memory => Some(end_behind(send_memory(&mut link.outgoing))),
    }
}

/// Answers the requests of a connection in order, until it ends. Commands are received at the moment `now`.
pub fn serve_link<I: Inbox + Drop, S: Source + Drop, K: Sink + Drop, P: Patterns + Drop>(
    alloc: Global,
    inbox: &mut I,
    link: &mut Link<S, K>,
    patterns: &mut P,
    now: Moment,
) -> LinkEnd
    requires now { HasStamp now }
    ensures shown { I.shown inbox.new ≡ I.shown inbox.old }
    ensures same { (p t : List ℕ) → P.says patterns.new p t ≡ P.says patterns.old p t }

    // The connection's requests are answered in order, each as the definition says. At `Closed` all answers were written, up to
    // the one that ends the connection. This holds for the tables as they are, and for each history that they stand for.
    ensures served { Serves (Takes I.held I.does) (world_of (I.shown inbox.old) (P.says patterns.old)) written_text now result
        (limited 0 (S.left link.old.incoming))
        (outside inbox.old (P.asked patterns.old) (P.refusals patterns.old))
        (outside inbox.new (P.asked patterns.new) (P.refusals patterns.new))
        (K.held link.old.outgoing) (K.held link.new.outgoing) }

    // Before each read, all requests that were taken whole are answered, and the answers written: at `ReadFault` the connection was
    // served as one that ends with the bytes that were taken. Any read may fail.
    ensures so_far { result ≡ LinkEnd.ReadFault
        → (taken : ℕ) × ServedSoFar (Takes I.held I.does) (world_of (I.shown inbox.old) (P.says patterns.old)) written_text now
        (limited 0 (S.left link.old.incoming)) (limited taken (S.left link.new.incoming))
        (outside inbox.old (P.asked patterns.old) (P.refusals patterns.old))
        (outside inbox.new (P.asked patterns.new) (P.refusals patterns.new))
        (K.held link.old.outgoing) (K.held link.new.outgoing) }
    ensures stands { (history : Trace) → Stands (I.shown inbox.old) history
        → Serves (Takes I.held I.does) (spec.world_of (I.shown inbox.old).ttls history (P.says patterns.old)) lines_text now result
        (limited 0 (S.left link.old.incoming))
        (outside inbox.old (P.asked patterns.old) (P.refusals patterns.old))
        (outside inbox.new (P.asked patterns.new) (P.refusals patterns.new))
        (K.held link.old.outgoing) (K.held link.new.outgoing) }
    ensures reads { Counts (S.fault_count link.old.incoming) (S.fault_count link.new.incoming) (result ≡ LinkEnd.ReadFault) }
    ensures writes { Counts (K.fault_count link.old.outgoing) (K.fault_count link.new.outgoing) (result ≡ LinkEnd.WriteFault) }
{
    let mut reading = Incoming::new(alloc);
    'serving: for _served in 0..u64::MAX {
        match serve_next(alloc, inbox, &mut reading, link, patterns, now) {
            Some(end) => return end,
            None => {}
        }
    }
    // This line is unreachable: each request takes at least one byte, and a connection has at most 2^62.
    LinkEnd::Closed
}
