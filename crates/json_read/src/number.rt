//! Finds where a number ends, and takes its spelling.
ghost use Rattle.std.specs.Prelude.{◌≡◌, ◌<◌, ◌≤◌, ◌+◌, length, drop, option_map, slice_range, IfOk, IfSome, List, ℕ};
ghost use Rattle.json_machine.specs.text_spec.Number.{IsNumber};
ghost use Rattle.json_machine.specs.Machine.{number_step, may_end, number_stop, number_verdict};
ghost use Rattle.json_read.specs.Numbers.{state_of, ends_as, number_found, IsBegun};

use json_tree::{Number, NumberState, Text};
use std::alloc::{AllocError, Global};

// One step of the machine of numbers, once a number has begun.
#[inline]
#[tactic(auto, using(crate::proofs::NumberSteps::step_same, crate::proofs::NumberSteps::step_begun))]
fn step(state: NumberState, byte: u8) -> Option<NumberState>
    requires { IsBegun state }
    ensures value { option_map state_of result ≡ number_step (state_of state) byte }
    ensures begun { IfSome result IsBegun }
{
    state.step(byte)
}

#[inline]
fn stop(state: NumberState, at: usize) -> Result<usize, usize>
    requires { IsBegun state }
    ensures { (s rest : List ℕ) → number_stop (may_end (state_of state)) s at rest ≡ ends_as result s rest }
{
    if state.may_end() { Ok(at) } else { Err(at) }
}

/// The end of the number whose first byte is at `start`, or the offset at which it can't continue.
pub(crate) fn number_end(bytes: &[u8], start: usize, first: NumberState) -> Result<usize, usize>
    requires place { start < length bytes.now }
    requires begun { IsBegun first }
    ensures value { number_verdict (state_of first) (slice_range bytes.now start (start + 1)) (start + 1) (drop (start + 1) bytes.now)
        ≡ number_found bytes.now start result }
    ensures bound { IfOk result (λ end. (start < end) × (end ≤ length bytes.now)) }
{
    let mut state = first;
    let mut at = start + 1;
    'digits: while at < bytes.len() {
        match step(state, bytes[at]) {
            Some(next) => {
                state = next;
                at += 1;
            }
            None => return stop(state, at),
        }
    }
    stop(state, at)
}

/// The number that the bytes from `start` to `end` spell.
#[inline]
pub(crate) fn number_of(
    alloc: Global,
    bytes: &[u8],
    start: usize,
    end: usize,
) -> Result<Number, AllocError>
    requires order { start ≤ end }
    requires within { end ≤ length bytes.now }
    requires number { IsNumber (slice_range bytes.now start end) }
    ensures { IfOk result (λ n. n ≡ slice_range bytes.now start end) }
{
    Ok(Number::of(Text::from_part(alloc, bytes, start, end)?))
}
