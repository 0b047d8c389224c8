//! A front over TCP: the listening socket.
ghost use Rattle.std.specs.Prelude.{◌≡◌, ◌⊎◌, ◌∷◌, ◌++◌, [], None, Some, IfOk, IsErr};
ghost use Rattle.front_tcp.specs.Links.{given, listens_of, links_out, links_back, faults_of, read_faults_of, write_faults_of};

use crate::halves::{TcpIncoming, TcpOutgoing};
use fleet_ports::Failed;
use front_port::{Arrived, Front, Link};
use http_server::Log;
use std::io;
use std::net::{Ipv4Addr, SocketAddr, SocketAddrV4, TcpListener};

/// A listening port of this machine, on the loopback interface only. It never answers that no link is left.
#[derive(Drop)]
pub struct TcpFront {
    net: HostRuntime,
    listener: Option<TcpListener>,
    port: Option<u16>,
    faults: u64,
    handed_out: Log<u8, u8>,
    given_back: Log<TcpIncoming, TcpOutgoing>,
}

impl TcpFront {
    /// A front that doesn't listen yet.
    pub fn new(rt: &HostRuntime) -> TcpFront
        ensures listens { listens_of result ≡ None }
        ensures out { links_out result ≡ 0 }
        ensures back { links_back result ≡ [] }
        ensures faults { faults_of result ≡ 0 }
    {
        TcpFront {
            net: *rt,
            listener: None,
            port: None,
            faults: 0,
            handed_out: Log::new(),
            given_back: Log::new(),
        }
    }

    /// The port that it listens on. If port 0 was requested, this is the port that the system chose. No counter records a failure
    /// of this call.
    pub fn port(&self) -> Result<u16, Failed>
        ensures port { IfOk result (λ port. (listens_of self.now ≡ Some port) ⊎ (listens_of self.now ≡ Some 0)) }
        ensures refused { IsErr result → (listens_of self.now ≡ None) ⊎ (listens_of self.now ≡ Some 0) }
    {
        match self.port {
            Some(0) => self.chosen(),
            Some(port) => Ok(port),
            None => Err(Failed),
        }
    }

    // The port that the system chose.
    fn chosen(&self) -> Result<u16, Failed> {
        match &self.listener {
            Some(listener) => match listener.local_addr() {
                Ok(address) => Ok(address.port()),
                Err(_) => Err(Failed),
            },
            None => Err(Failed),
        }
    }
}

// The next client's socket as two handles, which send every write at once.
fn accept(listener: &Option<TcpListener>) -> io::Result<Link<TcpIncoming, TcpOutgoing>>
    ensures calm { IfOk result (λ link. (read_faults_of link.incoming ≡ 0) × (write_faults_of link.outgoing ≡ 0)) }
{
    match listener {
        Some(listener) => {
            let (stream, _) = listener.accept()?;
            stream.set_nodelay(true)?;
            let other = stream.try_clone()?;
            Ok(Link {
                incoming: TcpIncoming::new(stream),
                outgoing: TcpOutgoing::new(other),
            })
        }
        None => Err(io::Error::from(io::ErrorKind::NotConnected)),
    }
}

impl Front for TcpFront {
    type Incoming = TcpIncoming;

    type Outgoing = TcpOutgoing;

    ghost listens = { λ front. listens_of front };

    ghost left = { λ _. None };

    ghost handed_out = { λ front. links_out front };

    ghost given_back = { λ front. links_back front };

    ghost fault_count = { λ front. faults_of front };

    fn listen(&mut self, port: u16) -> Result<(), Failed> {
        let address = SocketAddr::V4(SocketAddrV4::new(Ipv4Addr::LOCALHOST, port));
        match TcpListener::bind(&self.net, address) {
            Ok(listener) => {
                self.listener = Some(listener);
                self.port = Some(port);
                Ok(())
            }
            Err(_) => {
                self.faults = self.faults.saturating_add(1);
                Err(Failed)
            }
        }
    }

    fn next(&mut self) -> Arrived<Link<TcpIncoming, TcpOutgoing>> {
        match accept(&self.listener) {
            Ok(link) => {
                self.handed_out = self.handed_out.and(&0, &0);
                Arrived::Link(link)
            }
            Err(_) => {
                self.faults = self.faults.saturating_add(1);
                Arrived::Failed
            }
        }
    }

    fn give_back(&mut self, link: Link<TcpIncoming, TcpOutgoing>)
        ensures given_back { links_back self.new ≡ links_back self.old ++ given link.incoming link.outgoing ∷ [] }
        ensures listens { listens_of self.new ≡ listens_of self.old }
        ensures handed_out { links_out self.new ≡ links_out self.old }
        ensures calm { faults_of self.new ≡ faults_of self.old }
    {
        self.given_back = self.given_back.and(&link.incoming, &link.outgoing);
    }
}
