//! A list of frames.
ghost use Rattle.std.specs.Prelude.{◌≡◌, ◌∷◌, ◌++◌, [], OnOk, OnErr};

use json_tree::Bytes;
use std::alloc::{AllocError, Global};
use std::marker::Model;

/// A list of byte strings. Contracts see the list.
#[derive(Drop)]
pub struct Frames {
    list: Vec<Bytes>,
}

impl Model for Frames {
    ghost use Rattle.std.specs.Prelude.{ℕ, List};

    ghost Value = { List (List ℕ) };

    ghost view = { λ f. f.list.items };
}

impl Frames {
    /// An empty list. It allocates nothing.
    pub fn new(alloc: Global) -> Frames
        ensures empty { result ≡ [] }
    {
        Frames {
            list: Vec::new(alloc),
        }
    }

    /// Appends a frame. If memory runs out, the frame is dropped and the list is unchanged.
    pub fn push(&mut self, frame: Bytes) -> Result<(), AllocError>
        ensures ok { OnOk result (self.new ≡ self.old ++ frame ∷ []) }
        ensures err { OnErr result (self.new ≡ self.old) }
    {
        self.list.push(frame)?;
        Ok(())
    }

    /// The frames in their order.
    pub fn as_slice(&self) -> &[Bytes]
        ensures value { result.now ≡ self.now }
    {
        self.list.as_slice()
    }

    /// The frames in their order, each to be taken out and let go by the caller.
    pub fn into_vec(self) -> Vec<Bytes>
        ensures value { result.items ≡ self }
    {
        self.list
    }
}
