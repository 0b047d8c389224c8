//! The keys under which texts are hashed.
ghost use Rattle.std.specs.Prelude.{◌≡◌};

use std::hash::{BuildHasher, DefaultHasher, RandomState};

/// Keys of a hasher. With random keys, an attacker can't choose texts that collide. With fixed keys anyone can.
#[derive(Clone, Copy)]
pub enum Keys {
    /// The same at every start of the program.
    Fixed,
    /// Drawn at random when the program starts.
    Drawn(RandomState),
}

impl BuildHasher for Keys {
    type Hasher = DefaultHasher;

    ghost use Rattle.pattern_port.specs.Hashers.{hasher_of_keys};

    ghost build_hasher = { hasher_of_keys };

    fn build_hasher(&self) -> DefaultHasher {
        match self {
            Keys::Fixed => DefaultHasher::new(),
            Keys::Drawn(state) => state.build_hasher(),
        }
    }
}
