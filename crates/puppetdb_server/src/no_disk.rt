//! Gives disks to commands that use none: each call of them fails.
ghost use Rattle.std.specs.Prelude.{◌≤◌};
ghost use Rattle.port_real.specs.fleet_ports.Counts.{Rose};

use fleet_ports::{Disk, Disks, Failed};

/// A disk that isn't there: each call fails.
#[derive(Drop)]
pub(crate) struct NoDisk {
    faults: u64,
}

impl NoDisk {
    /// Four such disks.
    pub(crate) fn four() -> Disks<NoDisk> {
        Disks {
            queue_a: NoDisk { faults: 0 },
            queue_b: NoDisk { faults: 0 },
            store_a: NoDisk { faults: 0 },
            store_b: NoDisk { faults: 0 },
        }
    }

    fn fail(&mut self) -> Failed
        ensures later { self.old.faults ≤ self.new.faults }
        ensures rose { Rose self.old.faults self.new.faults }
    {
        self.faults = self.faults.saturating_add(1);
        Failed
    }
}

impl Disk for NoDisk {
    ghost use Rattle.std.specs.Prelude.{false, []};

    ghost is_told = { false };

    ghost seen = { λ _. [] };

    ghost may_leave = { λ _ _. ⊥ };

    ghost longest = { λ _. 0 };

    ghost moment = { λ _. 0 };

    ghost left_since = { λ _ _ _. ⊥ };

    ghost fault_count = { λ d. d.faults };

    ghost seen_may_stay = { λ d h. Prim.cc };

    ghost told = { λ d c h. absurd h };

    ghost told_since = { λ d t c h. absurd h };

    ghost no_longer = { λ d c h. absurd h };

    ghost mixes = { λ d c i v h lt byte same. absurd h };

    ghost counts_now = { λ d t c le h. h };

    ghost only_now = { λ d c h. h };

    fn len(&mut self) -> Result<u64, Failed> {
        Err(self.fail())
    }

    fn read_at(&mut self, _at: u64, _into: &mut [u8]) -> Result<(), Failed> {
        Err(self.fail())
    }

    fn write_at(&mut self, _at: u64, _bytes: &[u8]) -> Result<(), Failed> {
        Err(self.fail())
    }

    fn cut(&mut self, _len: u64) -> Result<(), Failed> {
        Err(self.fail())
    }

    fn sync(&mut self) -> Result<(), Failed> {
        Err(self.fail())
    }

    fn faults(&self) -> u64 {
        self.faults
    }
}
