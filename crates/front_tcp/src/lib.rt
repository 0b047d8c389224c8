//! TCP connections: the trusted edge of the service's listener.
//!
//! A [`TcpFront`] listens on the loopback interface only. A link is one socket. Its halves, a [`TcpIncoming`] and a
//! [`TcpOutgoing`], are two handles of the socket, which closes when both are dropped. Each object is a few lines over the system
//! calls. It keeps a counter that rises at each failure, so a fault is answered only if the counter rose. Contracts know nothing
//! of the bytes. The halves have no buffer of their own. They use the caller's buffer, which has 64 KiB or more in bulk reads and
//! writes. Small packets are sent at once, since a client waits for the end of its answer.
//!
//! The lists of links handed out and given back exist for contracts alone and take no memory.
//!
//! The end of connections never comes. `port` returns the port that was asked for; for port 0 the system may choose any. It is
//! not proved that sockets carry the bytes. A test shows that it listens at 127.0.0.1 and not at 127.0.0.2.
#![tactic(auto)]

mod front;
mod halves;

pub use front::TcpFront;
pub use halves::{TcpIncoming, TcpOutgoing};
