//! Tests of connections, and of HTTP's requests and answers as bytes. There is nothing here but tests.
//!
//! - Connections (`front_tcp`, `front_memory`): one over the loopback carries bytes both ways, and 127.0.0.2 doesn't lead to the
//!   listener. Connections in memory come in their order, and a listed call fails.
//! - Requests and answers (`http_front`): requests and faults, from connections that give one byte, seven or all bytes for each
//!   call. The limits: 65,536 bytes and 64 lines of a head, a body of 16 MiB, 10,000 requests on one connection. Requests that
//!   clients sent: `pypuppetdb` and Puppet's terminus. Answers byte for byte. A fault of the connection.
#![tactic(auto)]

#[cfg(test)]
mod answers;
#[cfg(test)]
mod clients;
#[cfg(test)]
mod front_in_memory;
#[cfg(test)]
mod front_on_sockets;
#[cfg(test)]
mod limits;
#[cfg(test)]
mod play;
#[cfg(test)]
mod requests;
#[cfg(test)]
mod wrong;
