//! Files by the names of their records.
use crate::notes::{Notes, count_of, made};
use crate::texts::parted;
use std::alloc::{AllocError, Global};

/// The records, each by a letter and its bytes, where `#` stands for a number of one digit.
///
/// Of a queue: `b` a base with this last receipt; `c` a command with this receipt, facts of version 5 whose payload of one byte is no
/// JSON; `d` its Done, `s` that the command 4 superseded it, `r` its refusal and `f` a failure of the store at it; `h` a held command
/// at which the store failed twice, and `x` a discarded one.
///
/// Of a store: `L` lifetimes of so many days of nodes, 14 and 14, `S` the same with 1 and 1; `E` a base, `W` one that tells a sweep, `B`
/// one that tells this receipt; `C` the change with this receipt by which the node `a` is deactivated, `R` the same with the moment at
/// which it was received, and `U` without that; `w` a sweep; `m` the marks of `a`, and `M` of the node `b`, which was active and
/// deactivated; `l` limits; `+` a base with a byte too many.
///
/// `!` is no record, and `-` has no byte.
const RECORDS: &str = "b\0#\0\0\0\0\0\0\0|\
c\x03#\0\0\0\0\0\0\0\0\x05\0\0\0\0@\u{f2}\u{96}\x0dU\u{cb}\x17\0\0\0\0\0\0\0\0\x01\0\0\0x|\
d\x04#\0\0\0\0\0\0\0|\
s\x05#\0\0\0\0\0\0\0\x04\0\0\0\0\0\0\0|\
r\x06#\0\0\0\0\0\0\0\0|\
f\x07#\0\0\0\0\0\0\0\x01\0\0\0\0\0\0\0\x02\0\0\0\0\0\0\0|\
h\x01#\0\0\0\0\0\0\0\x02\0\0\0\0\x05\0\0\0\0@\u{f2}\u{96}\x0dU\u{cb}\x17\0\0\0\0\0\0\0\0\x01\0\0\0x|\
x\x02#\0\0\0\0\0\0\0\0\x05\0\0\0\0@\u{f2}\u{96}\x0dU\u{cb}\x17\0\0\0\0\0\0\0\0\x01\0\0\0x\x01|\
L\0#\0\0\0\x0e\0\0\0\x0e\0\0\0|\
S\0#\0\0\0\x01\0\0\0\x01\0\0\0|\
E\x01\0\0\0|\
W\x01\x01\0@\u{f2}\u{96}\x0dU\u{cb}\x17\0\0\0\0\0\0\0\0\0\0|\
B\x01\0\0\x01#\0\0\0\0\0\0\0|\
C\x03#\0\0\0\0\0\0\0\x03\x01\0\0\0a\0@\u{f2}\u{96}\x0dU\u{cb}\x17\0\0\0\0\0\0\0\0|\
R\x05#\0\0\0\0\0\0\0\x01\0@\u{f2}\u{96}\x0dU\u{cb}\x17\0\0\0\0\0\0\0\0\x03\x01\0\0\0a\0@\u{f2}\u{96}\x0dU\u{cb}\x17\0\0\0\0\0\0\0\0|\
U\x05#\0\0\0\0\0\0\0\0\x03\x01\0\0\0a\0@\u{f2}\u{96}\x0dU\u{cb}\x17\0\0\0\0\0\0\0\0|\
w\x04\x01\0@\u{f2}\u{96}\x0dU\u{cb}\x17\0\0\0\0\0\0\0\0|\
m\x02\x01\0\0\0a\0\0|\
M\x02\x01\0\0\0b\x01\0@\u{f2}\u{96}\x0dU\u{cb}\x17\0\0\0\0\0\0\0\0\x01\0@\u{f2}\u{96}\x0dU\u{cb}\x17\0\0\0\0\0\0\0\0|\
l\x06\x03\0\0\0\x01\0\0\0\x01\0\0\0\x09\0\0\0|\
+\x01\0\0\x01\x04\0\0\0\0\0\0\0\0|\
!\x09|\
-";

// The row of a name, behind its letter.
fn row_of(name: u8) -> &'static str {
    let mut rest = RECORDS;
    'rows: for _ in 0..RECORDS.len() {
        let (row, more) = parted(rest, "|");
        if let Some(text) = row.strip_prefix(name as char) {
            return text;
        }
        rest = more;
    }
    ""
}

// The byte of a letter of a row.
fn byte_of(letter: char, digit: u8) -> u8 {
    if letter == '#' {
        digit.wrapping_sub(b'0')
    } else {
        u8::try_from(letter as u32).unwrap_or(0)
    }
}

/// The bytes of a record, by its name and its digit.
pub fn record_of(alloc: Global, name: u8, digit: u8) -> Result<Vec<u8>, AllocError> {
    let mut bytes = Vec::new(alloc);
    'letters: for letter in row_of(name).chars() {
        bytes.push(byte_of(letter, digit))?;
    }
    Ok(bytes)
}

// Adds a frame with this text.
fn add_frame(file: &mut Vec<u8>, text: &[u8]) -> Result<(), AllocError> {
    let [a, b, c, d, ..] = (text.len() as u64).to_le_bytes();
    file.extend_from_slice(&[1, a, b, c, d])?;
    file.extend_from_slice(text)
}

// Adds the frame of a record.
fn add_record(alloc: Global, file: &mut Vec<u8>, name: u8, digit: u8) -> Result<(), AllocError> {
    let text = record_of(alloc, name, digit)?;
    add_frame(file, text.as_slice())
}

// Adds a frame for each record: its name and its digit.
fn add_frames(alloc: Global, file: &mut Vec<u8>, names: &[u8]) -> Result<(), AllocError> {
    let mut rest = names;
    'records: for _ in 0..names.len() {
        match rest {
            [name, digit, more @ ..] => {
                add_record(alloc, file, *name, *digit)?;
                rest = more;
            }
            _ => break,
        }
    }
    Ok(())
}

// A log file with these records.
fn file_of(alloc: Global, text: &str) -> Result<Vec<u8>, AllocError> {
    if let Some(bytes) = text.strip_prefix('=') {
        return bytes.as_bytes().to_vec(alloc);
    }
    let (generation, names) = text.split_once(':').unwrap_or(("1", text));
    let mut file = b"\x01PDBLOG1".to_vec(alloc)?;
    file.extend_from_slice(&count_of(generation).to_le_bytes())?;
    add_frames(alloc, &mut file, names.as_bytes())?;
    file.push(0)?;
    Ok(file)
}

/// A log file with these records: of generation 1, or of that before `:`. Behind `=` stand the bytes of a file that is none. Where memory
/// lacks, that is noted, and the file is empty.
pub fn file(notes: &mut Notes, text: &str) -> Vec<u8> {
    let alloc = notes.alloc;
    let file = file_of(alloc, text);
    made(notes, file, Vec::new(alloc))
}
