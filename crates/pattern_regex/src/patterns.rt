//! `Patterns` over the crate `regex`.
ghost use Rattle.std.specs.Prelude.{◌≡◌, ◌++◌, ◌∷◌, [], ℕ, List, map, IfOk, OnOk};
ghost use Rattle.pattern_port.specs.Course.{texts_of};
ghost use Rattle.pattern_port.specs.fleet_ports.Counts.{Counts};
ghost use Rattle.pattern_regex.specs.Regexes.{Finds, regex_says, refusals_of, keys_of};
ghost use Rattle.regex.specs.Strings.{matcher_pattern};

use pattern_port::{Keys, PatternFault, Patterns};
use regex::{Error, Matcher, Regex};
use regex_syntax::ErrorKind;
use std::alloc::{AllocError, Global};
use std::marker::Model;

/// A compiled pattern. Contracts see its text.
#[derive(Drop)]
pub struct Compiled {
    regex: Regex,
}

impl Model for Compiled {
    ghost use Rattle.std.specs.Prelude.{ℕ, List, ◌≡◌};
    ghost use Rattle.regex.specs.Patterns.{default_config};
    ghost use Rattle.regex.specs.Strings.{regex_source, regex_config, IsReadFromSource};

    ghost Value = { List ℕ };

    ghost view = { λ a. regex_source a.regex };

    ghost invariant = { λ a. (regex_config a.regex ≡ default_config) × IsReadFromSource a.regex };
}

/// Reads patterns with the crate `regex`.
#[derive(Drop)]
pub struct RegexPatterns {
    alloc: Global,
    refused: u64,
    keys: Keys,
}

impl RegexPatterns {
    /// A reader that has refused nothing yet, with fixed keys. It allocates nothing.
    pub fn new(alloc: Global) -> RegexPatterns
        ensures refusals { refusals_of result ≡ 0 }
        ensures keys { keys_of result ≡ Keys.Fixed }
    {
        RegexPatterns::with_keys(alloc, Keys::Fixed)
    }

    /// The same with these keys.
    pub fn with_keys(alloc: Global, keys: Keys) -> RegexPatterns
        ensures refusals { refusals_of result ≡ 0 }
        ensures keys { keys_of result ≡ keys }
    {
        RegexPatterns {
            alloc,
            refused: 0,
            keys,
        }
    }
}

impl RegexPatterns {
    // The fault of an error. Lack of memory is no refusal. Every other error is one, and is counted.
    fn fault_of(&mut self, error: &Error) -> PatternFault
        ensures { Counts (refusals_of self.old) (refusals_of self.new) (result ≡ PatternFault.Refused) }
    {
        match error {
            Error::OutOfMemory => PatternFault::Memory,
            Error::Syntax(error) if error.kind == ErrorKind::OutOfMemory => PatternFault::Memory,
            _ => {
                self.refused = self.refused.saturating_add(1);
                PatternFault::Refused
            }
        }
    }
}

// Appends one more answer.
fn match_one(matcher: &mut Matcher<'_>, text: &str, all: &mut Vec<bool>) -> Result<(), AllocError>
    ensures same { matcher_pattern matcher.new ≡ matcher_pattern matcher.old }
    ensures answer { OnOk result ((pattern : List ℕ) → Finds matcher.old pattern
        → all.new.items ≡ all.old.items ++ regex_says pattern text.now ∷ []) }
{
    all.push(matcher.is_match(text))?;
    Ok(())
}

// Whether the pattern is found in each of the texts, using one matcher.
fn match_all(alloc: Global, compiled: &Compiled, texts: &[&str]) -> Result<Vec<bool>, AllocError>
    ensures { IfOk result (λ all. all.items ≡ map (regex_says compiled.now) (texts_of texts.now)) }
{
    let mut matcher = compiled.regex.matcher(alloc)?;
    let mut all = Vec::new(alloc);
    'matching: for text in texts {
        match_one(&mut matcher, text, &mut all)?;
    }
    Ok(all)
}

impl Patterns for RegexPatterns {
    type Compiled = Compiled;

    ghost use Rattle.std.specs.Prelude.{None, refl};

    ghost says = { λ _ p t. regex_says p t };

    ghost made_from = { λ c. c };

    ghost refusals = { λ r. refusals_of r };

    ghost asked = { λ _. None };

    ghost course = { λ _. None };

    ghost asked_is = { λ _. refl };

    fn compile(&mut self, pattern: &str) -> Result<Compiled, PatternFault> {
        match Regex::new(self.alloc, pattern) {
            Ok(regex) => Ok(Compiled { regex }),
            Err(error) => Err(self.fault_of(&error)),
        }
    }

    fn matches(&mut self, compiled: &Compiled, text: &str) -> Result<bool, AllocError> {
        let mut matcher = compiled.regex.matcher(self.alloc)?;
        Ok(matcher.is_match(text))
    }

    fn matches_each(
        &mut self,
        alloc: Global,
        compiled: &Compiled,
        texts: &[&str],
    ) -> Result<Vec<bool>, AllocError> {
        match_all(alloc, compiled, texts)
    }

    fn keys(&self) -> Keys
        ensures { result ≡ keys_of self.now }
    {
        self.keys
    }
}
