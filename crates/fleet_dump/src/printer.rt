//! Writes items to a sink, a piece at a time.
ghost use Rattle.std.specs.Prelude.{◌≡◌, ◌++◌, ◌∷◌, ◌+◌, ◌≤◌, [], length, OnOk};
ghost use Rattle.fleet_ports.specs.Counts.{Counts};
ghost use Rattle.dump_writer.specs.dump_spec.history_spec.Lawful.{IsChange, IfMoment};
ghost use Rattle.dump_writer.specs.dump_spec.spool_spec.Limits.{most_spool};
ghost use Rattle.dump_writer.specs.Referred.{change_referred};
ghost use Rattle.fleet_dump.specs.Printed.{change_item, sweep_items, Adds, Printed, Sent};

use dump_writer::{ChangeRef, put_command, put_sweep};
use fleet_ports::{Sink, Wrote, write_all};
use fleet_rows::stamp_time::Moment;
use spool_maker::MOST_SPOOL;
use std::alloc::{AllocError, Global};

/// How writing a dump ended.
#[derive(Clone, Copy, PartialEq, Eq, Debug)]
pub enum Dumped {
    /// The whole dump was written.
    Ok,
    /// The sink failed. It took a prefix of the dump, and not all of it.
    WriteFault,
    /// There was no memory, or the dump passes a limit. The sink took a prefix of the dump.
    Memory,
}

/// The number of bytes at which buffered text is written.
const PIECE: usize = 65_536;

/// The text that is still to be written, and how many further bytes the spool may have.
#[derive(Drop)]
pub(crate) struct Printer {
    pub(crate) text: Vec<u8>,
    payload: Vec<u8>,
    pub(crate) room: u64,
}

impl Printer {
    /// A printer of an empty spool. It allocates no memory.
    pub(crate) fn new(alloc: Global) -> Printer
        ensures text { result.text.items ≡ [] }
        ensures room { result.room ≡ most_spool }
    {
        Printer {
            text: Vec::new(alloc),
            payload: Vec::new(alloc),
            room: MOST_SPOOL,
        }
    }

    /// Writes the command of the change.
    pub(crate) fn print_change<O: Sink + Drop>(&mut self, change: &ChangeRef, out: &mut O) -> Dumped
        requires { IsChange (change_referred change.now) }
        ensures which { Printed result (change_item (change_referred change.now) ∷ []) self.old.text.items self.new.text.items
            (O.held out.old) (O.held out.new) self.old.room self.new.room }
        ensures cause { Counts (O.fault_count out.old) (O.fault_count out.new) (result ≡ Dumped.WriteFault) }
    {
        if self.add_change(change).is_err() {
            return Dumped::Memory;
        }
        self.send(out)
    }

    /// Writes the sweep of expiry alone, or of reports alone, if there is one.
    pub(crate) fn print_sweep<O: Sink + Drop>(
        &mut self,
        reports: bool,
        moment: Option<Moment>,
        out: &mut O,
    ) -> Dumped
        requires { IfMoment moment }
        ensures which { Printed result (sweep_items reports moment) self.old.text.items self.new.text.items
            (O.held out.old) (O.held out.new) self.old.room self.new.room }
        ensures cause { Counts (O.fault_count out.old) (O.fault_count out.new) (result ≡ Dumped.WriteFault) }
    {
        if self.add_sweep(reports, moment).is_err() {
            return Dumped::Memory;
        }
        self.send(out)
    }

    /// Adds the command of the change to the text.
    pub(crate) fn add_change(&mut self, change: &ChangeRef) -> Result<(), AllocError>
        requires { IsChange (change_referred change.now) }
        ensures { OnOk result (Adds (change_item (change_referred change.now) ∷ []) self.old.text.items self.new.text.items self.old.room self.new.room) }
    {
        let before = self.text.len();
        put_command(&mut self.text, &mut self.payload, change)?;
        self.count_from(before)
    }

    fn add_sweep(&mut self, reports: bool, moment: Option<Moment>) -> Result<(), AllocError>
        requires { IfMoment moment }
        ensures { OnOk result (Adds (sweep_items reports moment) self.old.text.items self.new.text.items self.old.room self.new.room) }
    {
        match moment {
            Some(moment) => {
                let before = self.text.len();
                put_sweep(&mut self.text, reports, moment)?;
                self.count_from(before)
            }
            None => Ok(()),
        }
    }

    // Takes what was appended since the text had so many bytes from the room that is left.
    fn count_from(&mut self, before: usize) -> Result<(), AllocError>
        requires { before ≤ length self.old.text.items }
        ensures text { self.new.text ≡ self.old.text }
        ensures room { OnOk result (self.old.room + before ≡ self.new.room + length self.old.text.items) }
    {
        let more = (self.text.len() - before) as u64;
        if more > self.room {
            return Err(AllocError);
        }
        self.room -= more;
        Ok(())
    }

    /// Writes the text once it has `PIECE` bytes.
    pub(crate) fn send<O: Sink + Drop>(&mut self, out: &mut O) -> Dumped
        ensures which { Sent result self.old.text.items self.new.text.items (O.held out.old) (O.held out.new) }
        ensures room { self.new.room ≡ self.old.room }
        ensures cause { Counts (O.fault_count out.old) (O.fault_count out.new) (result ≡ Dumped.WriteFault) }
    {
        if self.text.len() < PIECE {
            return Dumped::Ok;
        }
        self.send_all(out)
    }

    /// Writes all text that is left.
    pub(crate) fn send_all<O: Sink + Drop>(&mut self, out: &mut O) -> Dumped
        ensures which { Sent result self.old.text.items self.new.text.items (O.held out.old) (O.held out.new) }
        ensures all { result ≡ Dumped.Ok → self.new.text.items ≡ [] }
        ensures room { self.new.room ≡ self.old.room }
        ensures cause { Counts (O.fault_count out.old) (O.fault_count out.new) (result ≡ Dumped.WriteFault) }
    {
        match write_all(out, self.text.as_slice()) {
            Wrote::All => {
                self.text.clear();
                Dumped::Ok
            }
            Wrote::Failed { .. } => Dumped::WriteFault,
        }
    }
}
