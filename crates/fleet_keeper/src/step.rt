//! The step that a keeper in memory notes for a call.
ghost use Rattle.std.specs.Prelude.{◌≡◌, [], ◌∷◌, ◌++◌, OnOk, OnErr};

use log_pair::record_log::Frames;
use std::alloc::{AllocError, Global};
use std::marker::Model;

/// Records that a call kept: appended ones, or a replacement of all.
#[derive(Drop)]
pub(crate) struct Step {
    /// The spellings of the records.
    pub(crate) frames: Frames,
    /// Whether they replace all earlier records.
    pub(crate) fresh: bool,
    /// Whether the call was done. If it failed and its repair failed too, it may or may not have been done.
    pub(crate) done: bool,
}

/// The steps, in order.
#[derive(Drop)]
pub(crate) struct Steps {
    list: Vec<Step>,
}

impl Model for Steps {
    ghost use Rattle.std.specs.Prelude.{List};
    ghost use Rattle.fleet_keeper.specs.declared.step.Step.{Step};

    ghost Value = { List Step };

    ghost view = { λ s. s.list.items };
}

impl Steps {
    pub(crate) fn new(alloc: Global) -> Steps
        ensures empty { result ≡ [] }
    {
        Steps {
            list: Vec::new(alloc),
        }
    }

    pub(crate) fn push(&mut self, step: Step) -> Result<(), AllocError>
        ensures ok { OnOk result (self.new ≡ self.old ++ step ∷ []) }
        ensures err { OnErr result (self.new ≡ self.old) }
    {
        self.list.push(step)?;
        Ok(())
    }
}
