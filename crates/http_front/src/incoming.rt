//! Reads the requests of a connection, one per call.
ghost use Rattle.std.specs.Prelude.{◌≡◌, ◌⊎◌, ◌≤◌, ◌^◌, [], true, false, IsTrue};
ghost use Rattle.fleet_ports.specs.Counts.{Counts};
ghost use Rattle.http_spec.specs.Requests.{IsCut};
ghost use Rattle.http_front.specs.Link.{limited};
ghost use Rattle.http_front.specs.Next.{unread, IfRequest, IfBad, IfEnded, Gives, IsBad, IsEnded, IsNext, StopsIn, ends_with};

use crate::reader::Reader;
use fleet_ports::Source;
use http_spec::{HttpFault, Request};
use std::alloc::Global;
use std::marker::Model;

/// The next thing on a connection.
#[derive(Drop)]
pub enum NextRequest {
    /// A request. Of a large body, all but the buffered bytes was read straight into place.
    Request(Request),
    /// The bytes left don't begin with a request, for this reason.
    Bad(HttpFault),
    /// The connection is over, or its bytes end within a request.
    Ended,
    /// The read failed, and the link's fault counter rose.
    ReadFault,
    /// Memory ran out.
    Memory,
}

/// The state of reading a connection between two requests. Each connection needs its own.
#[derive(Drop)]
pub struct Incoming {
    reader: Reader,
    over: bool,
}

impl Model for Incoming {
    ghost use Rattle.http_front.specs.Reading.{Reading, reading_code};

    ghost Value = { Reading };

    ghost coded = { reading_code };

    ghost use Rattle.http_front.specs.Inside.{buffered};

    ghost view = { λ i. record { ahead = buffered i.reader.buffer; taken = i.reader.taken; over = i.over } };
}

impl Incoming {
    /// The state before the first byte of a connection. It allocates nothing before the first request.
    pub fn new(alloc: Global) -> Incoming
        ensures ahead { result.ahead ≡ [] }
        ensures taken { result.taken ≡ 0 }
        ensures open { result.over ≡ false }
    {
        Incoming {
            reader: Reader::new(alloc),
            over: false,
        }
    }

    // The next request of a connection that isn't over.
    fn next<L: Source + Drop>(&mut self, link: &mut L) -> NextRequest
        ensures next { IsNext result (unread self.old (L.left link.old)) (unread self.new (L.left link.new)) }
        ensures asks { (link.new ≡ link.old) ⊎ IsCut self.old.ahead }
        ensures fault { result ≡ NextRequest.ReadFault
            → StopsIn (unread self.old (L.left link.old)) (limited self.new.taken (L.left link.new)) }
        ensures over { self.new.over ≡ ends_with result }
        ensures cause { Counts (L.fault_count link.old) (L.fault_count link.new) (result ≡ NextRequest.ReadFault) }
    {
        let next = self.reader.next(link);
        self.over = match &next {
            NextRequest::Request(request) => request.ends,
            _ => true,
        };
        next
    }
}

/// The next request of a connection: the one with which the unused bytes begin.
///
/// After a request that closes the connection, and after any other answer, the connection is over.
pub fn next_request<L: Source + Drop>(incoming: &mut Incoming, link: &mut L) -> NextRequest
    ensures request { IfRequest result (λ r. Gives r (unread incoming.old (L.left link.old))
        (unread incoming.new (L.left link.new))) }
    ensures bad { IfBad result (λ f. IsBad f (unread incoming.old (L.left link.old))) }
    ensures ended { IfEnded result (incoming.old.over ≡ false → IsEnded (unread incoming.old (L.left link.old))) }
    ensures over { incoming.new.over ≡ ends_with result }

    // The link is read only if the bytes read ahead end within a head or a body. So do all bytes that were taken before a read that
    // failed. Any read may fail, so no read is made while a request or a fault stands there.
    ensures asks { (link.new ≡ link.old) ⊎ IsCut incoming.old.ahead }
    ensures fault { result ≡ NextRequest.ReadFault
        → StopsIn (unread incoming.old (L.left link.old)) (limited incoming.new.taken (L.left link.new)) }

    // Once the connection is over, nothing more is read from it.
    ensures stays { incoming.old.over ≡ true → (result ≡ NextRequest.Ended) × (incoming.new ≡ incoming.old) × (link.new ≡ link.old) }

    ensures cause { Counts (L.fault_count link.old) (L.fault_count link.new) (result ≡ NextRequest.ReadFault) }
{
    if incoming.over {
        return NextRequest::Ended;
    }
    incoming.next(link)
}
