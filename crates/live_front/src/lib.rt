//! A listener that threads share: they take its connections (links) and give them back in turns, behind a turn lock.
//!
//! [`share`] puts a `Front` behind a lock. A thread with a pass calls [`take`], which asks the front for its next link, and later
//! [`give_back`]. Each is one hold. At most a given number of links is handed out. When the front has said that no link is left, or
//! has failed, it isn't asked again. [`close`] takes the front out.
//!
//! The lock's list begins with the front as it came and the limit. Then follow, in their order, the links that were handed out and
//! given back, and the end that the front told. The promises:
//! - Each link was the first one left when it was handed out. What was given back stands at the front in that order. A failure is
//!   told only if the front's fault count rose, an end only if no link is left (`FrontCourse` in `specs/Courses.antt`).
//! - A call of `take` answers Over exactly if the limit was reached or the end was told before (`FrontCallDoes`).
//! - At the close, the calls of all passes make up the list, each entry once (`ClosedFrom`).
//!
//! `take` waits for a connection within its hold, so the other threads wait with it, also those that give one back.
#![tactic(auto)]

mod entry;
mod shared;
mod under_lock;

pub use entry::{End, Passing, Taken};
pub use shared::SharedFront;
pub use under_lock::{Closed, FrontLock, FrontPass, close, give_back, share, take};
