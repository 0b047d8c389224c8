//! A client over the loopback that sends its next request only when the answer to the one before has come whole.
use crate::fleet::tables_of;
use crate::outside::{OneInbox, Says};
use fleet_ports::{Put, Sink};
use front_port::{Arrived, Front, Link};
use front_tcp::{TcpFront, TcpIncoming, TcpOutgoing};
use http_routes::{LinkEnd, serve_link};
use pattern_regex::RegexPatterns;
use stamp_time::read_stamp;
use std::alloc::Global;
use std::io::{Read, Write};
use std::net::{Ipv4Addr, Shutdown, SocketAddr, SocketAddrV4, TcpStream};
use std::test::Fail;

const REQUEST: &[u8] = b"GET /none HTTP/1.1\r\n\r\n";

const ANSWER: &[u8] =
    b"HTTP/1.1 404 Not Found\r\nContent-Type: application/json\r\nContent-Length: 24\r\n\r\n\
{\"error\":\"no such path\"}";

/// How many requests the client sends.
const TURNS: u32 = 3;

// The client of a link, which shares its thread with the server: it takes what is sent as soon as it is sent.
#[derive(Drop)]
struct Client {
    stream: TcpStream,
    came: Vec<u8>,
    answers: u32,
}

impl Client {
    // Takes so many bytes. Behind a whole answer it sends the next request, and behind the last one it sends no more.
    fn take(&mut self, count: usize) -> bool {
        let mut into = [0u8; 256];
        if count > into.len() || self.stream.read_exact(&mut into[..count]).is_err() {
            return false;
        }
        if self.came.extend_from_slice(&into[..count]).is_err() {
            return false;
        }
        if self.came.as_slice() != ANSWER {
            return true;
        }
        self.came.clear();
        self.answers = self.answers.saturating_add(1);
        if self.answers < TURNS {
            self.stream.write_all(REQUEST).is_ok()
        } else {
            self.stream.shutdown(Shutdown::Write).is_ok()
        }
    }
}

// The outgoing half, and the client behind it.
#[derive(Drop)]
struct Asking {
    outgoing: TcpOutgoing,
    client: Client,
}

impl Sink for Asking {
    ghost use Rattle.std.specs.Prelude.{None};
    ghost use Rattle.front_tcp.specs.Links.{write_faults_of};

    ghost held = { λ _. None };

    ghost fault_count = { λ asking. write_faults_of asking.outgoing };

    fn write_some(&mut self, piece: &[u8]) -> Put {
        let put = self.outgoing.write_some(piece);
        if let Put::Took(count) = put {
            let _ = self.client.take(count);
        }
        put
    }
}

// How many answers the client of this link came to, if the link was served to its end.
fn answers(
    alloc: Global,
    incoming: TcpIncoming,
    outgoing: TcpOutgoing,
    stream: TcpStream,
) -> Option<u32> {
    let now = read_stamp("2024-05-02T00:00:00Z")?;
    let Ok(tables) = tables_of(alloc, "") else {
        return None;
    };
    let mut inbox = OneInbox::new(alloc, tables, Says::Taking);
    let mut patterns = RegexPatterns::new(alloc);
    let mut link = Link {
        incoming,
        outgoing: Asking {
            outgoing,
            client: Client {
                stream,
                came: Vec::new(alloc),
                answers: 0,
            },
        },
    };
    let end = serve_link(alloc, &mut inbox, &mut link, &mut patterns, now);
    (end == LinkEnd::Closed).then_some(link.outgoing.client.answers)
}

#[test]
fn a_client_that_waits_for_its_answer_gets_it(rt: HostRuntime) -> Result<(), Fail> {
    let mut front = TcpFront::new(&rt);
    front.listen(0)?;
    let address = SocketAddr::V4(SocketAddrV4::new(Ipv4Addr::LOCALHOST, front.port()?));
    let mut client = TcpStream::connect(&rt, address)?;
    client.write_all(REQUEST)?;
    match front.next() {
        Arrived::Link(Link { incoming, outgoing }) => {
            assert!(rt; answers(rt.alloc(), incoming, outgoing, client) == Some(TURNS));
        }
        _ => panic!(rt; "no link"),
    }
    Ok(())
}
