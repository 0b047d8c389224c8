//! Texts and byte strings, which own their bytes. Contracts see both as lists of bytes.
ghost use Rattle.std.specs.Prelude.{◌≡◌, ◌≤◌, ◌+◌, length, slice_range, string_bytes, IfOk};
ghost use Rattle.std.specs.Str.{IsUtf8};
ghost use Rattle.json_tree.specs.Held.{bytes_of, FitsHeld};

use std::alloc::{AllocError, Global};
use std::convert::AsStr;
use std::marker::Model;

/// A text in UTF-8. A text of at most 23 bytes is stored inline and allocates nothing.
pub struct Text {
    held: Held,
}

// Written by hand, so that callers who drop a text needn't know where it is stored.
impl Drop for Text {
    fn drop(self) {
        let Text { held } = self;
        drop(held);
    }
}

impl Model for Text {
    ghost use Rattle.std.specs.Prelude.{ℕ, List};

    ghost Value = { List ℕ };

    ghost use Rattle.std.specs.Str.{IsUtf8};
    ghost use Rattle.json_tree.specs.Held.{bytes_of, FitsHeld};

    ghost view = { λ a. bytes_of a.held };

    ghost invariant = { λ a. IsUtf8 (bytes_of a.held) × FitsHeld a.held };
}

// The most bytes that are stored inline: what a vector and the tag leave room for.
const SHORT: usize = 23;

// Where the bytes of a text are stored.
#[derive(Drop)]
enum Held {
    Short { len: u8, bytes: [u8; SHORT] },
    Long(Vec<u8>),
}

#[inline]
fn short(text: &[u8]) -> Held
    requires { length text.now ≤ 23 }
    ensures bytes { bytes_of result ≡ text.now }
    ensures fits { FitsHeld result }
{
    let mut bytes = [0; SHORT];
    bytes[..text.len()].copy_from_slice(text);
    Held::Short {
        len: text.len() as u8,
        bytes,
    }
}

// Copies a fixed number of bytes from `start` on, which needs no loop. Only those before `end` count.
#[inline]
fn short_part(bytes: &[u8], start: usize, end: usize) -> Held
    requires order { start ≤ end }
    requires short { end ≤ start + 23 }
    requires within { start + 23 ≤ length bytes.now }
    ensures bytes { bytes_of result ≡ slice_range bytes.now start end }
    ensures fits { FitsHeld result }
{
    let mut front = [0; SHORT];
    front.copy_from_slice(&bytes[start..start + SHORT]);
    Held::Short {
        len: (end - start) as u8,
        bytes: front,
    }
}

impl Held {
    #[inline]
    fn as_slice(&self) -> &[u8]
        requires { FitsHeld self.now }
        ensures { result.now ≡ bytes_of self.now }
    {
        match self {
            Held::Short { len, bytes } => &bytes[..*len as usize],
            Held::Long(bytes) => bytes.as_slice(),
        }
    }
}

impl Text {
    /// A copy of the text.
    pub fn from_str(alloc: Global, text: &str) -> Result<Text, AllocError>
        ensures { IfOk result (λ t. t ≡ text.now) }
    {
        Text::from_bytes(alloc, text.as_bytes())
    }

    /// A text with a copy of these bytes.
    #[inline]
    pub fn from_bytes(alloc: Global, bytes: &[u8]) -> Result<Text, AllocError>
        requires { IsUtf8 bytes.now }
        ensures { IfOk result (λ t. t ≡ bytes.now) }
    {
        if bytes.len() <= SHORT {
            Ok(Text { held: short(bytes) })
        } else {
            let copied = Vec::from_slice(alloc, bytes)?;
            Ok(Text {
                held: Held::Long(copied),
            })
        }
    }

    /// A text with a copy of the bytes from `start` to `end`.
    #[inline]
    pub fn from_part(
        alloc: Global,
        bytes: &[u8],
        start: usize,
        end: usize,
    ) -> Result<Text, AllocError>
        requires order { start ≤ end }
        requires within { end ≤ length bytes.now }
        requires text { IsUtf8 (slice_range bytes.now start end) }
        ensures { IfOk result (λ t. t ≡ slice_range bytes.now start end) }
    {
        if end - start <= SHORT && bytes.len() - start >= SHORT {
            Ok(Text {
                held: short_part(bytes, start, end),
            })
        } else {
            Text::from_bytes(alloc, &bytes[start..end])
        }
    }

    /// A text of these bytes, which are moved, not copied.
    pub fn from_utf8(bytes: Vec<u8>) -> Text
        requires { IsUtf8 bytes.items }
        ensures { result ≡ bytes.items }
    {
        Text {
            held: Held::Long(bytes),
        }
    }

    #[inline]
    pub fn as_str(&self) -> &str
        ensures { result.now ≡ self.now }
    {
        unsafe { str::from_utf8_unchecked(self.held.as_slice()) }
    }
}

// A list of texts can so be passed wherever a list of anything with text is expected.
impl AsStr for Text {
    ghost text = { λ x. x };

    #[inline]
    fn as_str(&self) -> &str {
        Text::as_str(self)
    }
}

impl Text {
    /// The text of a string, which is moved, not copied.
    pub fn from_string(inner: String) -> Text
        ensures { result ≡ string_bytes inner }
    {
        Text {
            held: Held::Long(inner.into_bytes()),
        }
    }

    /// A copy of the text as a string.
    pub fn into_string(self, alloc: Global) -> Result<String, AllocError>
        ensures { IfOk result (λ s. string_bytes s ≡ self) }
    {
        String::from_str(alloc, self.as_str())
    }
}

/// A byte string.
#[derive(Drop)]
pub struct Bytes {
    inner: Vec<u8>,
}

impl Model for Bytes {
    ghost use Rattle.std.specs.Prelude.{ℕ, List};

    ghost Value = { List ℕ };

    ghost view = { λ a. a.inner.items };
}

impl Bytes {
    /// A copy of the bytes.
    pub fn from_slice(alloc: Global, bytes: &[u8]) -> Result<Bytes, AllocError>
        ensures { IfOk result (λ b. b ≡ bytes.now) }
    {
        let inner = bytes.to_vec(alloc)?;
        Ok(Bytes { inner })
    }

    /// The byte string of these bytes, which are moved, not copied.
    pub fn from_vec(inner: Vec<u8>) -> Bytes
        ensures { result ≡ inner.items }
    {
        Bytes { inner }
    }

    pub fn as_slice(&self) -> &[u8]
        ensures { result.now ≡ self.now }
    {
        self.inner.as_slice()
    }
}
