//! Notes of refused calls, and the entries of the list that a stage stands for.
use core_ends::Keeper;
use fleet_ports::Disk;
use fleet_rows::{Command, Kinds};
use hub_calls::Entry;
use stamp_time::Moment;
use std::marker::Model;
use std::snapshot::Snapshot;

/// Why a command or a sweep was refused, where the cause must still show when the server closes.
#[derive(Drop)]
pub enum Refused<C> {
    /// A disk of the queue counted a fault at this command. If the queue went down, it may or may not have the command.
    QueueFault(C),
    /// The core was down at a command.
    QueueDown,
    /// The store counted a fault at a sweep.
    StoreFault,
    /// The store went down at this sweep. It may or may not have the sweep.
    StoreDown(Kinds, Moment),
    /// The core was down at a sweep.
    CoreDown,
}

/// A note, which has no bytes of its command. Contracts see the command.
#[derive(Drop)]
pub struct Note {
    /// The number of the core's events before the note.
    pub(crate) before: u64,
    pub(crate) what: Refused<Snapshot<Command>>,
}

impl Model for Note {
    ghost use Rattle.live_stage.specs.Notes.{NoteView, told};

    ghost Value = { NoteView };

    ghost view = { λ n. record { before = n.before; what = told n.what } };
}

/// An entry of the list that a stage stands for. Only contracts use it; no value of it is made.
pub enum Staged<D: Disk + Drop, K: Keeper + Drop> {
    /// The core as it came under the lock, or an event of the core.
    Core(Entry<D, K>),
    /// A command or a sweep was refused.
    Noted(Refused<Command>),
}
