//! Commands with several owners.
ghost use Rattle.std.specs.Prelude.{◌≡◌, IfOk};

use crate::command::Command;
use std::alloc::{AllocError, Global};
use std::marker::Model;
use std::sync::Arc;

/// A command that several lists own, so that its payload is in memory once. Contracts see the command.
#[derive(Drop)]
pub struct Shared {
    inner: Arc<Command>,
}

impl Model for Shared {
    ghost use Rattle.fleet_rows.specs.declared.command.Command.{Command};

    ghost Value = { Command };

    ghost view = { λ a. a.inner.value };
}

impl Shared {
    /// The command with one owner.
    pub fn new(alloc: Global, command: Command) -> Result<Shared, AllocError>
        ensures { IfOk result (λ shared. shared ≡ command) }
    {
        let inner = Arc::new(alloc, command)?;
        Ok(Shared { inner })
    }

    /// The command.
    pub fn command(&self) -> &Command
        ensures { result.now ≡ self.now }
    {
        &self.inner
    }

    /// Adds an owner, without copying the command. On failure the owners are unchanged.
    pub fn share(&self) -> Result<Shared, AllocError>
        ensures { IfOk result (λ shared. shared ≡ self.now) }
    {
        let inner = Arc::try_clone(&self.inner)?;
        Ok(Shared { inner })
    }
}
