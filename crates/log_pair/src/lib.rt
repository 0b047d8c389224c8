//! A log in two files that take turns, so that it can be rewritten while it is in use.
//!
//! At any time one of the two files counts: the open one with the greater generation. The crate `log_spec` defines what two files
//! stand for. Frames are appended to the file that counts. A checkpoint lays the other file with the next generation and opens
//! its gate last. So a crash leaves the old frames or the new ones. Then the files swap roles.
//!
//! - `open_pair` reads both files and gives a `Pair` and its frames, or says where the pair is damaged.
//! - `Pair::append` appends a frame, and `Pair::checkpoint` replaces all frames.
//! - `lay_pair` makes both files anew.
//!
//! Contracts speak of the pairs of images of the two disks. They say what every pair stands for after each answer, and at every
//! moment within a call. The disks share no clock. `Pair::append` and `Pair::checkpoint` write one file alone, so a moment within
//! one combines an image of that file with any image of the other at entry. `lay_pair` finishes the second file before it begins
//! the first.
//!
//! Clauses and costs:
//! - `open_pair`: the frames of the newest open file, or the damaged position (`told`). Then each pair of images is damaged
//!   there (`damaged`).
//! - `Pair::checkpoint`: after Failed, Spent and TooLong all images have the old frames (`refused`). It takes no memory.
//! - `lay_pair`: after Ok the first file has exactly the bytes, and the second at most its first byte (`bytes_a`, `bytes_b`).
//!   After a fault each image is initialized or closed if the gate's write had begun (`opened`), otherwise none is new
//!   (`unopened`).
#![tactic(auto)]

mod append;
mod checkpoint;
mod laid;
mod opened;
mod pair;

pub use checkpoint::Checked;
pub use laid::lay_pair;
pub use log_spec::Side;
pub use opened::{PairFault, open_pair};
pub use pair::Pair;

// The words of lower crates that the modules above use.
pub use record_log;
pub use record_log::fleet_ports;
