//! Searches the end of a head as its bytes arrive, reading each byte once.
ghost use Rattle.std.specs.Prelude.{◌≡◌, ◌⊎◌, ℕ, ◌+◌, ◌≤◌, List, ◌++◌, length, drop, Some, MatchOption, IfSome, IfNone};
ghost use Rattle.http_spec.specs.HeadEnd.{on, ended, line_ends, line_goes_on, step, head_at};
ghost use Rattle.http_front.specs.Scans.{place_of, line_of, lines_of, HasScanned};
ghost use Rattle.http_spec.specs.Limits.{most_head};

use http_spec::MOST_HEAD;

/// What was read of the current line.
#[derive(Clone, Copy, PartialEq, Eq)]
pub(crate) enum Line {
    /// Nothing.
    Fresh,
    /// One CR.
    Return,
    /// More than that, so the line isn't empty.
    Filled,
}

/// How far a head was scanned.
#[derive(Drop)]
pub(crate) struct Scan {
    /// The number of scanned bytes.
    pub(crate) at: usize,
    /// The number of lines that ended after the request line, once that has ended.
    behind: Option<usize>,
    line: Line,
}

impl Scan {
    /// A scan before the first byte.
    pub(crate) fn new() -> Scan
        ensures at { result.at ≡ 0 }
        ensures lines { lines_of result ≡ 0 }
        ensures none { (bytes : List ℕ) → HasScanned result bytes }
    {
        Scan {
            at: 0,
            behind: None,
            line: Line::Fresh,
        }
    }

    // Ends the line. If it is the empty line that ends the head, gives the number of lines after the request line.
    fn end_line(&mut self) -> Option<usize>
        requires few { lines_of self.old ≤ most_head }
        ensures step { MatchOption result (line_ends self.old.behind (line_of self.old.line) ≡ on (place_of self.new))
            (λ n. line_ends self.old.behind (line_of self.old.line) ≡ ended n) }
        ensures lines { lines_of self.new ≤ lines_of self.old + 1 }
        ensures at { self.new.at ≡ self.old.at }
    {
        match self.line {
            Line::Filled => {
                self.behind = match self.behind {
                    None => Some(0),
                    Some(lines) => Some(lines + 1),
                };
                self.line = Line::Fresh;
                None
            }
            Line::Fresh | Line::Return => {
                self.line = Line::Fresh;
                self.behind
            }
        }
    }

    // Continues the line.
    fn go_on(&mut self, byte: u8)
        ensures step { line_goes_on self.old.behind (line_of self.old.line) byte ≡ on (place_of self.new) }
        ensures lines { lines_of self.new ≡ lines_of self.old }
        ensures at { self.new.at ≡ self.old.at }
    {
        self.line = match self.line {
            Line::Fresh => if byte == b'\r' {
                Line::Return
            } else {
                Line::Filled
            },
            Line::Return | Line::Filled => Line::Filled,
        };
    }

    // Scans one byte. If the head ends with it, gives the number of lines after the request line.
    fn step(&mut self, byte: u8) -> Option<usize>
        requires few { lines_of self.old ≤ most_head }
        ensures step { MatchOption result (step (place_of self.old) byte ≡ on (place_of self.new))
            (λ n. step (place_of self.old) byte ≡ ended n) }
        ensures lines { lines_of self.new ≤ lines_of self.old + 1 }
        ensures at { self.new.at ≡ self.old.at }
    {
        if byte == b'\n' {
            return self.end_line();
        }
        self.go_on(byte);
        None
    }

    /// Scans the bytes that weren't scanned yet, up to the size limit of a head. If the head ends, gives the number of lines
    /// after the request line.
    pub(crate) fn run(&mut self, bytes: &[u8]) -> Option<usize>
        requires inside { self.old.at ≤ length bytes.now }
        requires most { self.old.at ≤ most_head }
        requires lines { lines_of self.old ≤ self.old.at }
        requires scanned { HasScanned self.old bytes.now }
        ensures inside { self.new.at ≤ length bytes.now }
        ensures most { self.new.at ≤ most_head }
        ensures found { IfSome result (λ lines. (more : List ℕ)
            → head_at (bytes.now ++ more) ≡ Some (lines, drop self.new.at bytes.now ++ more)) }
        ensures lines { IfNone result (lines_of self.new ≤ self.new.at) }
        ensures scanned { IfNone result (HasScanned self.new bytes.now) }
        ensures looked { IfNone result ((self.new.at ≡ length bytes.now) ⊎ (self.new.at ≡ most_head)) }
    {
        'looking: while self.at < bytes.len() && self.at < MOST_HEAD {
            match self.step(bytes[self.at]) {
                Some(lines) => {
                    self.at += 1;
                    return Some(lines);
                }
                None => self.at += 1,
            }
        }
        None
    }
}
