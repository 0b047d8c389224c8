//! The two halves of a TCP connection.
ghost use Rattle.std.specs.Prelude.{◌≡◌};
ghost use Rattle.front_tcp.specs.Links.{read_faults_of, write_faults_of};

use fleet_ports::{Put, Sink, Source, Took};
use std::io::{Read, Write};
use std::net::TcpStream;

/// The incoming half: what a client sends.
#[derive(Drop)]
pub struct TcpIncoming {
    stream: TcpStream,
    faults: u64,
}

/// The outgoing half: what is sent to a client.
#[derive(Drop)]
pub struct TcpOutgoing {
    stream: TcpStream,
    faults: u64,
}

impl TcpIncoming {
    pub(crate) fn new(stream: TcpStream) -> TcpIncoming
        ensures faults { read_faults_of result ≡ 0 }
    {
        TcpIncoming { stream, faults: 0 }
    }
}

impl TcpOutgoing {
    pub(crate) fn new(stream: TcpStream) -> TcpOutgoing
        ensures faults { write_faults_of result ≡ 0 }
    {
        TcpOutgoing { stream, faults: 0 }
    }
}

impl Source for TcpIncoming {
    ghost use Rattle.std.specs.Prelude.{None};

    ghost left = { λ _. None };

    ghost fault_count = { λ incoming. read_faults_of incoming };

    fn read_some(&mut self, into: &mut [u8]) -> Took {
        match self.stream.read(into) {
            Ok(0) => Took::Ended,
            Ok(count) => Took::Bytes(count),
            Err(_) => {
                self.faults = self.faults.saturating_add(1);
                Took::Failed
            }
        }
    }
}

impl Sink for TcpOutgoing {
    ghost use Rattle.std.specs.Prelude.{None};

    ghost held = { λ _. None };

    ghost fault_count = { λ outgoing. write_faults_of outgoing };

    fn write_some(&mut self, piece: &[u8]) -> Put {
        match self.stream.write(piece) {
            Ok(count) if count > 0 => Put::Took(count),
            _ => {
                self.faults = self.faults.saturating_add(1);
                Put::Failed
            }
        }
    }
}
