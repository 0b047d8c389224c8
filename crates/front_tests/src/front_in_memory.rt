//! Links in memory.
use crate::wrong::{Wrong, holds};
use fleet_ports::{Sink, Source, Took};
use front_memory::MemoryFront;
use front_port::{Arrived, Front};
use port_memory::Numbers;
use port_memory::json_tree::Bytes;
use std::alloc::{AllocError, Global};
use std::collections::VecDeque;

// What a next link came to, as a number: how many bytes came in on it, or one of these.
const ENDED: usize = 100;

const FAILED: usize = 101;

const UNREAD: usize = 102;

// A front with two links, whose second call fails.
fn two_links(alloc: Global) -> Result<MemoryFront, AllocError> {
    let mut links = VecDeque::new(alloc);
    links.push_back(Bytes::from_slice(alloc, b"ping")?)?;
    links.push_back(Bytes::from_slice(alloc, b"again")?)?;
    let mut fail = Numbers::new(alloc);
    fail.push(2)?;
    Ok(MemoryFront::new(alloc, links, fail))
}

// Reads the next link once, writes to it and gives it back.
fn next_link(front: &mut MemoryFront) -> usize {
    match front.next() {
        Arrived::Link(mut link) => {
            let mut into = [0u8; 8];
            let count = match link.incoming.read_some(&mut into) {
                Took::Bytes(count) => count,
                _ => UNREAD,
            };
            let _ = link.outgoing.write_some(b"pong");
            front.give_back(link);
            count
        }
        Arrived::Ended => ENDED,
        Arrived::Failed => FAILED,
    }
}

// What four calls of `next` come to, behind one of `listen`, and how many links were kept.
fn shown(alloc: Global) -> Result<[usize; 5], AllocError> {
    let mut front = two_links(alloc)?;
    let _ = front.listen(8080);
    let calls = [
        next_link(&mut front),
        next_link(&mut front),
        next_link(&mut front),
        next_link(&mut front),
    ];
    let kept = front.ended().len();
    Ok([calls[0], calls[1], calls[2], calls[3], kept])
}

fn come_in_order(alloc: Global) -> Result<bool, AllocError> {
    Ok(shown(alloc)? == [FAILED, 4, 5, ENDED, 2])
}

#[test]
fn links_come_in_their_order_and_a_listed_call_fails(rt: HostRuntime) -> Result<(), Wrong> {
    holds(come_in_order(rt.alloc())?, 0)
}
