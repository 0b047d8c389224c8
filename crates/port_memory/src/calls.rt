//! The calls of a disk in memory. A call fails exactly if its number is listed or memory runs out. Each call has the clauses of
//! `Disk` in the words of this disk. It also says when it fails, and names images that exist afterwards.
ghost use Rattle.std.specs.Prelude.{◌≡◌, ◌+◌, ◌≤◌, length, take, drop, max, reverse, true, refl, is_err, IsTrue, IsErr, IfOk, OnOk, OnErr};
ghost use Rattle.fleet_ports.specs.Counts.{Counts};
ghost use Rattle.fleet_ports.specs.Disks.{overlaid, Torn, Cut, Follows, NoMore, Only};
ghost use Rattle.fleet_ports.specs.Moments.{Elapses};
ghost use Rattle.port_memory.specs.Calls.{is_listed, next};
ghost use Rattle.port_memory.specs.Disks.{bytes_of, images_of, longest_of, moment_of, images_since, fails_of, calls_of, faults_of, starved_of};
ghost use Rattle.port_memory.specs.Disks.{IsCall, Leaves, Opens};

use crate::disk::MemoryDisk;
use crate::note::{begin, note_cut, note_sync, note_write, refuse, starve};
use fleet_ports::{Disk, Failed};

impl Disk for MemoryDisk {
    ghost use Rattle.port_memory.specs.History.{held, longest_after, Images, Since};
    ghost use Rattle.port_memory.specs.Laws.{since_now, now_only, images_fit, seen_left};
    ghost use Rattle.port_memory.specs.Mixes.{images_mix};

    ghost is_told = { true };

    ghost seen = { λ d. held d.start d.written };

    ghost may_leave = { λ d. Images d.start (reverse d.steps.items) };

    ghost longest = { λ d. longest_after d.start (reverse d.steps.items) };

    ghost moment = { λ d. length (reverse d.steps.items) };

    ghost left_since = { λ d t. Since d.start t (reverse d.steps.items) };

    ghost fault_count = { λ d. d.faults };

    ghost seen_may_stay = { λ d _. seen_left d.start (reverse d.steps.items) (held d.start d.written) d.replayed };

    ghost told = { λ d c _. refl };

    ghost told_since = { λ d t c _. refl };

    ghost no_longer = { λ d c. images_fit d.start (reverse d.steps.items) c };

    ghost mixes = { λ d c i v left lt _. images_mix d.start (reverse d.steps.items) (held d.start d.written) c i v d.replayed left lt };

    ghost counts_now = { λ d t c _. since_now d.start t (reverse d.steps.items) c };

    ghost only_now = { λ d c. now_only d.start (reverse d.steps.items) c };

    fn len(&mut self) -> Result<u64, Failed>
        ensures length { IfOk result (λ n. n ≡ length (bytes_of self.old)) }
        ensures seen { bytes_of self.new ≡ bytes_of self.old }
        ensures images { NoMore (images_of self.old) (images_of self.new) }
        ensures stay { NoMore (images_of self.new) (images_of self.old) }
        ensures longest { longest_of self.new ≡ longest_of self.old }
        ensures time { Elapses (moment_of self.old) (moment_of self.new) (images_since self.old) (images_since self.new) (images_of self.new) }
        ensures cause { Counts (faults_of self.old) (faults_of self.new) (IsErr result) }
        ensures call { IsCall self.old self.new (IsErr result) }
        ensures fails { is_err result ≡ is_listed (fails_of self.old) (calls_of self.new) }
        ensures fed { starved_of self.new ≡ starved_of self.old }
    {
        if begin(&mut self.calls, &self.fail) {
            self.faults = self.faults.saturating_add(1);
            return Err(Failed);
        }
        Ok(self.as_slice().len() as u64)
    }

    fn read_at(&mut self, at: u64, into: &mut [u8]) -> Result<(), Failed>
        requires inside { at + length into.old ≤ length (bytes_of self.old) }
        ensures bytes { OnOk result (into.new ≡ take (length into.old) (drop at (bytes_of self.old))) }
        ensures seen { bytes_of self.new ≡ bytes_of self.old }
        ensures images { NoMore (images_of self.old) (images_of self.new) }
        ensures stay { NoMore (images_of self.new) (images_of self.old) }
        ensures longest { longest_of self.new ≡ longest_of self.old }
        ensures time { Elapses (moment_of self.old) (moment_of self.new) (images_since self.old) (images_since self.new) (images_of self.new) }
        ensures cause { Counts (faults_of self.old) (faults_of self.new) (IsErr result) }
        ensures call { IsCall self.old self.new (IsErr result) }
        ensures fails { is_err result ≡ is_listed (fails_of self.old) (calls_of self.new) }
        ensures fed { starved_of self.new ≡ starved_of self.old }
    {
        if begin(&mut self.calls, &self.fail) {
            return refuse(&mut self.faults);
        }
        let at = at as usize;
        into.copy_from_slice(&self.as_slice()[at..at + into.len()]);
        Ok(())
    }

    fn write_at(&mut self, at: u64, bytes: &[u8]) -> Result<(), Failed>
        requires inside { at ≤ length (bytes_of self.old) }
        ensures written { OnOk result (bytes_of self.new ≡ overlaid (bytes_of self.old) at bytes.now) }
        ensures unharmed { OnErr result (bytes_of self.new ≡ bytes_of self.old) }
        ensures images { Follows (Torn at (length bytes.now)) (images_of self.old) (images_of self.new) }
        ensures leaves { OnOk result (Leaves (Torn at (length bytes.now)) self.old self.new) }
        ensures open { OnErr result (Opens (Torn at (length bytes.now)) self.old self.new) }
        ensures longest { longest_of self.new ≤ max (longest_of self.old) (at + length bytes.now) }
        ensures time { Elapses (moment_of self.old) (moment_of self.new) (images_since self.old) (images_since self.new) (images_of self.new) }
        ensures cause { Counts (faults_of self.old) (faults_of self.new) (IsErr result) }
        ensures call { IsCall self.old self.new (IsErr result) }
    {
        if begin(&mut self.calls, &self.fail) {
            self.note_failed_write(at, bytes);
            return refuse(&mut self.faults);
        }
        match note_write(
            self.alloc,
            &self.start,
            &mut self.written,
            &mut self.steps,
            at,
            bytes,
        ) {
            Ok(()) => Ok(()),
            Err(_) => {
                self.note_failed_write(at, bytes);
                starve(&mut self.starved, &mut self.faults)
            }
        }
    }

    fn cut(&mut self, len: u64) -> Result<(), Failed>
        requires inside { len ≤ length (bytes_of self.old) }
        ensures cut { OnOk result (bytes_of self.new ≡ take len (bytes_of self.old)) }
        ensures unharmed { OnErr result (bytes_of self.new ≡ bytes_of self.old) }
        ensures images { Follows (Cut len) (images_of self.old) (images_of self.new) }
        ensures leaves { OnOk result (Leaves (Cut len) self.old self.new) }
        ensures open { OnErr result (Opens (Cut len) self.old self.new) }
        ensures longest { longest_of self.new ≡ longest_of self.old }
        ensures time { Elapses (moment_of self.old) (moment_of self.new) (images_since self.old) (images_since self.new) (images_of self.new) }
        ensures cause { Counts (faults_of self.old) (faults_of self.new) (IsErr result) }
        ensures call { IsCall self.old self.new (IsErr result) }
    {
        if begin(&mut self.calls, &self.fail) {
            self.note_failed_cut(len);
            return refuse(&mut self.faults);
        }
        match note_cut(
            self.alloc,
            &self.start,
            &mut self.written,
            &mut self.steps,
            len,
        ) {
            Ok(()) => Ok(()),
            Err(_) => {
                self.note_failed_cut(len);
                starve(&mut self.starved, &mut self.faults)
            }
        }
    }

    fn sync(&mut self) -> Result<(), Failed>
        ensures durable { OnOk result (Only (bytes_of self.old) (images_of self.new)) }
        ensures seen { bytes_of self.new ≡ bytes_of self.old }
        ensures images { NoMore (images_of self.old) (images_of self.new) }
        ensures stay { OnErr result (NoMore (images_of self.new) (images_of self.old)) }
        ensures longest { OnOk result (longest_of self.new ≡ length (bytes_of self.old)) }
        ensures as_long { OnErr result (longest_of self.new ≡ longest_of self.old) }
        ensures time { Elapses (moment_of self.old) (moment_of self.new) (images_since self.old) (images_since self.new) (images_of self.new) }
        ensures cause { Counts (faults_of self.old) (faults_of self.new) (IsErr result) }
        ensures call { IsCall self.old self.new (IsErr result) }
    {
        if begin(&mut self.calls, &self.fail) {
            return refuse(&mut self.faults);
        }
        match note_sync(&mut self.steps) {
            Ok(()) => Ok(()),
            Err(_) => starve(&mut self.starved, &mut self.faults),
        }
    }

    fn faults(&self) -> u64
        ensures count { result ≡ faults_of self.now }
    {
        self.faults
    }
}
