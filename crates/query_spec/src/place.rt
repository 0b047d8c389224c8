//! Defines places: positions in the text that a query was read from.
ghost use Rattle.std.specs.Prelude.{◌≡◌, ◌<◌, ◌≤◌, ◌+◌, [], ◌∷◌, ◌++◌, length, IfOk};

use std::alloc::{AllocError, Global};
use std::marker::Model;

/// The most numbers of a place: one for each level of a JSON value, and one to spare.
const MOST: usize = 128;

/// The position of a part: the number of the element in each array, from the outermost inwards, from 0. Contracts see the list.
#[derive(Drop)]
pub struct Place {
    steps: Vec<usize>,
}

impl Model for Place {
    ghost use Rattle.std.specs.Prelude.{ℕ, List, ◌≤◌, length};

    ghost Value = { List ℕ };

    ghost view = { λ a. a.steps.items };

    ghost invariant = { λ a. length a.steps.items ≤ 128 };
}

impl Place {
    /// The outermost place. It allocates no memory.
    pub fn new(alloc: Global) -> Place
        ensures { result ≡ [] }
    {
        Place {
            steps: Vec::new(alloc),
        }
    }

    /// A copy of the place.
    pub fn copy(&self, alloc: Global) -> Result<Place, AllocError>
        ensures { IfOk result (λ place. place ≡ self.now) }
    {
        Ok(Place {
            steps: Vec::from_slice(alloc, self.steps.as_slice())?,
        })
    }

    /// The place of the element with this number.
    pub fn within(&self, alloc: Global, number: usize) -> Result<Place, AllocError>
        requires { length self.now < 128 }
        ensures place { IfOk result (λ place. place ≡ self.now ++ number ∷ []) }
        ensures longer { IfOk result (λ place. length place ≡ length self.now + 1) }
    {
        let mut steps = Vec::from_slice(alloc, self.steps.as_slice())?;
        steps.push(number)?;
        Ok(Place { steps })
    }

    /// The place as a `Path`. It takes no memory.
    pub fn path(&self) -> Path
        ensures { result ≡ self.now }
    {
        let steps = self.steps.as_slice();
        let mut numbers = [0; MOST];
        numbers[..steps.len()].copy_from_slice(steps);
        Path {
            numbers,
            len: steps.len(),
        }
    }
}

/// The place that a fault names: at most 128 numbers, stored without allocation. Contracts see the list.
#[derive(Drop)]
pub struct Path {
    numbers: [usize; MOST],
    len: usize,
}

impl Model for Path {
    ghost use Rattle.std.specs.Prelude.{ℕ, List, take, ◌≤◌};

    ghost Value = { List ℕ };

    ghost view = { λ a. take a.len a.numbers };

    ghost invariant = { λ a. a.len ≤ 128 };
}

impl Path {
    /// The numbers in order.
    pub fn as_slice(&self) -> &[usize]
        ensures numbers { result.now ≡ self.now }
        ensures most { length self.now ≤ 128 }
    {
        &self.numbers[..self.len]
    }
}
