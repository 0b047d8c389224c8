//! The trait `Patterns`: reads patterns, and matches texts against them.
ghost use Rattle.std.specs.Prelude.{◌≡◌, [], ◌∷◌, ℕ, List, Bool, Option, map, IfOk};
ghost use Rattle.fleet_ports.specs.Counts.{Counts};
ghost use Rattle.pattern_port.specs.Course.{Act, read, tried, course_more, readings_in, texts_of, AreTried};
ghost use Rattle.pattern_port.specs.Refused.{IsRefused, is_refused, Asked, asked_more};

use crate::keys::Keys;
use std::alloc::{AllocError, Global};

/// Why a pattern couldn't be compiled.
#[derive(Drop, Debug)]
pub enum PatternFault {
    /// The text is no pattern, or none that this reader accepts. The refusal counter rose.
    Refused,
    /// Memory ran out.
    Memory,
}

/// Reads patterns, and says whether texts match them.
pub trait Patterns {
    /// A compiled pattern.
    type Compiled: Drop;

    /// Whether the second text matches the pattern of the first.
    ghost says: { Self → List ℕ → List ℕ → Bool };

    /// The text that a pattern was compiled from.
    ghost made_from: { Self.Compiled → List ℕ };

    /// The number of refused patterns, up to 2^64 - 1.
    ghost refusals: { Self → ℕ };

    /// The texts passed to `compile` so far, in order, each with whether it was refused, if they are known.
    ghost asked: { Self → Option (List Asked) };

    /// The same, with each try of a text on a pattern in between, in order.
    ghost course: { Self → Option (List Act) };

    /// Compiles a pattern.
    fn compile(&mut self, pattern: &str) -> Result<Self::Compiled, PatternFault>
        ensures same { (p t : List ℕ) → says self.new p t ≡ says self.old p t }
        ensures made { IfOk result (λ c. made_from c ≡ pattern.now) }
        ensures cause { Counts (refusals self.old) (refusals self.new) (IsRefused result) }
        ensures noted { asked self.new ≡ asked_more (asked self.old) ((pattern.now, is_refused result) ∷ []) }
        ensures course { course self.new ≡ course_more (course self.old) (read pattern.now (is_refused result) ∷ []) };

    /// Whether the text matches the pattern.
    fn matches(&mut self, compiled: &Self::Compiled, text: &str) -> Result<bool, AllocError>
        ensures same { (p t : List ℕ) → says self.new p t ≡ says self.old p t }
        ensures answer { IfOk result (λ b. b ≡ says self.old (made_from compiled.now) text.now) }
        ensures calm { refusals self.new ≡ refusals self.old }
        ensures silent { asked self.new ≡ asked self.old }
        ensures course { course self.new ≡ course_more (course self.old) (tried (made_from compiled.now) text.now ∷ []) };

    /// Whether each of the texts matches, in order. An implementation that can reuse state between texts overrides this.
    fn matches_each(
        &mut self,
        alloc: Global,
        compiled: &Self::Compiled,
        texts: &[&str],
    ) -> Result<Vec<bool>, AllocError>
        ensures same { (p t : List ℕ) → says self.new p t ≡ says self.old p t }
        ensures answer { IfOk result (λ all. all.items ≡ map (says self.old (made_from compiled.now)) (texts_of texts.now)) }
        ensures calm { refusals self.new ≡ refusals self.old }
        ensures silent { asked self.new ≡ asked self.old }
        ensures course { AreTried (made_from compiled.now) (texts_of texts.now) (course self.old) (course self.new) result }
    {
        let mut all = Vec::new(alloc);
        'matching: for text in texts {
            all.push(self.matches(compiled, text)?)?;
        }
        Ok(all)
    }

    /// The keys under which texts are hashed.
    fn keys(&self) -> Keys {
        Keys::Fixed
    }

    /// The texts passed to `compile` are the readings of the course.
    ghost asked_is: { (reader : Self) → asked reader ≡ readings_in (course reader) };
}
