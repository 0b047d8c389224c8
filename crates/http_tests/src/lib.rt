//! Tests of what the routes serve (`http_routes`). There is nothing here but tests, and the inbox that they use.
//!
//! Cases are lines of texts; `play.rt` says what each word does. Each route with its methods, and other paths. What is posted to the
//! command route, and which error comes first. An inbox that refuses a command for each reason. What query routes are asked, in URLs
//! and in bodies. Requests of clients: `pypuppetdb` and Puppet's terminus. How connections end, with faults of both halves. The limits:
//! large heads, bodies and queries, and 10,000 requests on one connection. How many texts a pattern is tried on. A client over the
//! loopback that waits for each answer before it sends the next request gets every answer.
#![tactic(auto)]

#[cfg(test)]
mod asked;
#[cfg(test)]
mod ends;
#[cfg(test)]
mod fleet;
mod outside;
#[cfg(test)]
mod play;
#[cfg(test)]
mod posted;
#[cfg(test)]
mod route_clients;
#[cfg(test)]
mod route_limits;
#[cfg(test)]
mod routes;
#[cfg(test)]
mod tried;
#[cfg(test)]
mod waiting;
#[cfg(test)]
mod wrong;

pub use outside::{OneInbox, Says};
