//! One link over the loopback.
use fleet_ports::{Put, Sink, Source, Took};
use front_port::{Arrived, Front};
use front_tcp::TcpFront;
use std::io::{Read, Write};
use std::net::{Ipv4Addr, Shutdown, SocketAddr, SocketAddrV4, TcpStream};
use std::test::Fail;

fn may_go_to_another_thread<T: Send>(_value: &T) {}

#[test]
fn a_link_carries_bytes_both_ways(rt: HostRuntime) -> Result<(), Fail> {
    let mut front = TcpFront::new(&rt);
    front.listen(0)?;
    let address = SocketAddr::V4(SocketAddrV4::new(Ipv4Addr::LOCALHOST, front.port()?));
    let mut client = TcpStream::connect(&rt, address)?;
    client.write_all(b"ping")?;
    may_go_to_another_thread(&front);
    let elsewhere = SocketAddr::V4(SocketAddrV4::new(Ipv4Addr::new(127, 0, 0, 2), front.port()?));
    assert!(rt; TcpStream::connect(&rt, elsewhere).is_err());
    match front.next() {
        Arrived::Link(mut link) => {
            may_go_to_another_thread(&link.incoming);
            may_go_to_another_thread(&link.outgoing);
            let mut into = [0u8; 8];
            assert!(rt; link.incoming.read_some(&mut into) == Took::Bytes(4));
            assert_eq!(rt; &into[..4], b"ping" as &[u8]);
            assert!(rt; link.outgoing.write_some(b"pong") == Put::Took(4));
            client.shutdown(Shutdown::Write)?;
            assert!(rt; link.incoming.read_some(&mut into) == Took::Ended);
            front.give_back(link);
        }
        _ => panic!(rt; "no link"),
    }
    let mut answer = [0u8; 8];
    let count = client.read(&mut answer)?;
    assert_eq!(rt; &answer[..count], b"pong" as &[u8]);
    assert_eq!(rt; client.read(&mut answer)?, 0);
    Ok(())
}
