//! The numbers of the calls that fail.
ghost use Rattle.std.specs.Prelude.{◌≡◌, ◌∷◌, ◌++◌, [], OnOk, OnErr};
ghost use Rattle.port_memory.specs.Calls.{is_listed};

use std::alloc::{AllocError, Global};
use std::marker::Model;

/// A list of call numbers. Contracts see the list.
#[derive(Drop)]
pub struct Numbers {
    list: Vec<u64>,
}

impl Model for Numbers {
    ghost use Rattle.std.specs.Prelude.{ℕ, List};

    ghost Value = { List ℕ };

    ghost view = { λ n. n.list.items };
}

impl Numbers {
    /// An empty list. It allocates nothing.
    pub fn new(alloc: Global) -> Numbers
        ensures empty { result ≡ [] }
    {
        Numbers {
            list: Vec::new(alloc),
        }
    }

    /// Appends a number. If memory runs out, the list is unchanged.
    pub fn push(&mut self, number: u64) -> Result<(), AllocError>
        ensures ok { OnOk result (self.new ≡ self.old ++ number ∷ []) }
        ensures err { OnErr result (self.new ≡ self.old) }
    {
        self.list.push(number)?;
        Ok(())
    }

    /// The numbers in their order.
    pub fn as_slice(&self) -> &[u64]
        ensures value { result.now ≡ self.now }
    {
        self.list.as_slice()
    }

    /// Whether a number is in the list.
    pub(crate) fn lists(&self, number: u64) -> bool
        ensures value { result ≡ is_listed self.now number }
    {
        self.list.contains(&number)
    }
}
