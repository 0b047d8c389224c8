//! How the last command ended, and what the lines of a script expect of it.
use crate::texts::{add_bytes, add_line, number_of, parted};
use itoa::Buffer;
use std::alloc::{AllocError, Global};
use std::process::ExitCode;
use std::str;

/// Stands before the port in what was printed. No command prints it.
const BEFORE_PORT: &[u8] = b"\0port ";

fn text_of(bytes: &[u8]) -> &str {
    str::from_utf8(bytes).unwrap_or("no text")
}

// Makes the text the code and the line of the errors. A line without an end has ` ..` behind it.
fn put_end(end: &mut String, code: u8, errors: &str) -> Result<(), AllocError> {
    end.clear();
    end.push_str(Buffer::new().format(code))?;
    if errors.is_empty() {
        return Ok(());
    }
    let (line, more) = parted(errors, "\n");
    end.push(' ')?;
    end.push_str(line)?;
    end.push_str(if more.is_empty() && errors.ends_with('\n') {
        ""
    } else {
        " .."
    })
}

// Appends a word and how a command ended to a log.
fn put_note(log: &mut String, word: &str, end: &str) -> Result<(), AllocError> {
    log.push_str(if log.is_empty() { "" } else { "; " })?;
    log.push_str(word)?;
    log.push_str(end)
}

// Appends each line that isn't empty, with a blank in front.
fn put_lines(log: &mut String, text: &str) -> Result<(), AllocError> {
    let mut rest = text;
    'lines: for _ in 0..text.len() {
        let (line, more) = parted(rest, "\n");
        log.push_str(if line.is_empty() { "" } else { " " })?;
        log.push_str(line)?;
        rest = more;
    }
    Ok(())
}

#[derive(Drop)]
pub struct Told {
    // The code, and the line of the errors.
    end: String,
    /// What was printed, then the port that was listened to, and the answer of each link that was given back.
    pub(crate) printed: Vec<u8>,
    // How many commands went through the gate before all had come.
    early: u64,
    // How many texts were tried on patterns.
    tries: u64,
    // What the lines say was printed.
    wanted: Vec<u8>,
    /// How the commands ended that a line `log` follows.
    pub log: String,
}

impl Told {
    pub(crate) fn new(alloc: Global) -> Told {
        Told {
            end: String::new(alloc),
            printed: Vec::new(alloc),
            early: 0,
            tries: 0,
            wanted: Vec::new(alloc),
            log: String::new(alloc),
        }
    }

    /// Keeps what a command came to, but for what was served.
    pub fn keep(&mut self, code: u8, out: &[u8], errors: &[u8]) -> Result<(), AllocError> {
        self.printed.clear();
        self.printed.extend_from_slice(out)?;
        put_end(&mut self.end, code, text_of(errors))
    }

    /// Keeps the port that was listened to. It comes behind what was printed.
    pub fn keep_port(&mut self, port: Option<u16>) -> Result<(), AllocError> {
        if let Some(port) = port {
            self.printed.extend_from_slice(BEFORE_PORT)?;
            add_line(&mut self.printed, Buffer::new().format(port))?;
        }
        Ok(())
    }

    /// Keeps the answer of a link that was given back. It comes behind the port.
    pub fn keep_answer(&mut self, answer: &[u8]) -> Result<(), AllocError> {
        self.printed.extend_from_slice(answer)?;
        self.printed.push(b'\n')?;
        Ok(())
    }

    /// Keeps how many commands went through the gate before all had come.
    pub fn keep_early(&mut self, early: u64) {
        self.early = early;
    }

    /// Keeps how many texts were tried on patterns.
    pub fn keep_tries(&mut self, tries: u64) {
        self.tries = tries;
    }

    /// Whether the last command ended with code 0 or 13.
    pub fn goes_on(&self) -> bool {
        let end = self.end.as_str();
        end == "0" || end.starts_with("13 ")
    }

    /// Whether it ended so, and printed and served what the lines say.
    pub fn has_ended(&mut self, text: &str) -> bool {
        let is_so = self.end.as_str() == text && self.printed.as_slice() == self.wanted.as_slice();
        self.wanted.clear();
        is_so
    }

    // Appends to the log whether a disk failed, how the last command ended, and what it printed.
    fn note(&mut self, has_failed: bool) -> Result<(), AllocError> {
        let word = if has_failed { "fault " } else { "calm " };
        put_note(&mut self.log, word, self.end.as_str())?;
        put_lines(&mut self.log, text_of(self.printed.as_slice()))
    }

    /// Does what a line says of the last command, and tells whether it is as the line says; none for other lines.
    pub(crate) fn step(
        &mut self,
        has_failed: bool,
        word: &str,
        text: &str,
    ) -> Result<Option<bool>, AllocError> {
        match word {
            "printed" => add_line(&mut self.wanted, text)?,
            "bare" => add_bytes(&mut self.wanted, text)?,
            "port" => {
                self.wanted.extend_from_slice(BEFORE_PORT)?;
                add_line(&mut self.wanted, text)?;
            }
            "answer" => {
                add_bytes(&mut self.wanted, text)?;
                self.wanted.push(b'\n')?;
            }
            "end" => return Ok(Some(self.has_ended(text))),
            "told" => {
                add_line(&mut self.wanted, text)?;
                return Ok(Some(self.has_ended("0")));
            }
            "log" => self.note(has_failed)?,
            "together" => return Ok(Some(self.early == 0)),
            "apart" => return Ok(Some(self.early > 0)),
            "tried" => return Ok(Some(self.tries == number_of(text))),
            "again" => self.wanted.extend_from_slice(self.printed.as_slice())?,
            _ => return Ok(None),
        }
        Ok(Some(true))
    }
}

/// The number of the exit status.
pub fn code_of(code: ExitCode) -> u8 {
    for number in 0..100 {
        if code == ExitCode::from(number) {
            return number;
        }
    }
    100
}
