//! Commands as received.
use json_tree::{Bytes, Text};
use stamp_time::Moment;

/// The kind of a command, in the order of the kind numbers in log files.
#[derive(Clone, Copy, PartialEq, Eq, Debug)]
pub enum Kind {
    Facts,
    Catalog,
    Report,
    Deactivate,
    Expiration,
}

/// A received command.
#[derive(Drop)]
pub struct Command {
    pub kind: Kind,
    /// The version of the wire format that the sender names.
    pub version: u32,
    /// When it was received. No rule about histories uses it.
    pub received: Moment,
    /// The bytes that the sender sent, valid or not.
    pub payload: Bytes,
}

/// The commands among which newer ones supersede older ones: one node and kind. A report belongs to no group, and neither does a
/// payload without a certname or stamp.
#[derive(Drop)]
pub struct Group {
    pub certname: Text,
    pub kind: Kind,
}
