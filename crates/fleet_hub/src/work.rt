//! The work of one worker on a hub.
ghost use Rattle.std.specs.Prelude.{◌≡◌, None};
ghost use Rattle.core_drain.specs.core_course.Sight.{sight_of};
ghost use Rattle.hub_work.specs.hub_calls.Seen.{PassGoesOn};
ghost use Rattle.hub_work.specs.Ends.{LastCall};

use crate::hub::Hub;
use core_drain::{Keeper, WorkEnd};
use fleet_ports::Disk;
use hub_work::{Gate, Pass, Purpose, work_at};
use std::alloc::Global;
use std::sync::Wait;

impl<D: Disk + Drop, K: Keeper + Drop, P: Purpose> Hub<D, K, P> {
    /// Claims, decodes by the gate, prepares and settles command after command, until an end. Decoding and preparing happen
    /// outside the lock. If no command may be claimed now, the worker rests until something has changed, and claims again.
    /// Without memory the command at hand is queued again, which counts no failure.
    ///
    /// Before it decodes, it takes four bytes for each byte of the payload in one piece, and gives them back. If that fails, it
    /// decodes anyway.
    pub fn work<G: Gate, W: Wait>(
        &self,
        rt: &W,
        alloc: Global,
        pass: &mut Pass<D, K, P>,
        gate: &G,
        worker: u32,
    ) -> WorkEnd
        requires pass { pass.old.lock ≡ self.now.lock }
        ensures pass { PassGoesOn pass.old pass.new }
        ensures ends { LastCall (sight_of D.Disk K.Keeper) K.generation P.only_work None result pass.old pass.new }
    {
        work_at(&self.lock, rt, alloc, pass, gate, worker)
    }
}
