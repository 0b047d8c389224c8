//! Keeps hashes by their bytes.
ghost use Rattle.std.specs.Prelude.{◌≡◌, ◌<◌, length, map, slice_get, Some, IfOk};
ghost use Rattle.std.specs.List.{AllByRecursion};
ghost use Rattle.hex.specs.Hex.{encode_lower};
ghost use Rattle.packed_shown.specs.Hashes.{IsHash};

use hex::FromHex;
use json_tree::Text;
use std::alloc::{AllocError, Global};
use std::marker::Model;

/// A hash. Contracts see its 40 digits.
#[derive(Drop)]
pub struct PackedHash {
    bytes: [u8; 20],
}

/// A list of hashes. Contracts see their digits.
#[derive(Drop)]
pub struct PackedHashes {
    list: Vec<[u8; 20]>,
}

impl Model for PackedHash {
    ghost use Rattle.std.specs.Prelude.{ℕ, List};
    ghost use Rattle.hex.specs.Hex.{encode_lower};

    ghost Value = { List ℕ };

    ghost view = { λ a. encode_lower a.bytes };
}

impl Model for PackedHashes {
    ghost use Rattle.std.specs.Prelude.{ℕ, List, map};
    ghost use Rattle.hex.specs.Hex.{encode_lower};

    ghost Value = { List (List ℕ) };

    ghost view = { λ a. map encode_lower a.list.items };
}

// The bytes of a hash.
fn bytes_of(digits: &str) -> [u8; 20]
    requires { IsHash digits.now }
    ensures { encode_lower result ≡ digits.now }
{
    match <[u8; 20] as FromHex>::from_hex(digits) {
        Ok(bytes) => bytes,
        Err(_) => unreachable!(),
    }
}

// The digits of a hash.
fn digits_of(alloc: Global, bytes: [u8; 20]) -> Result<Text, AllocError>
    ensures { IfOk result (λ digits. digits ≡ encode_lower bytes) }
{
    let digits = hex::encode(alloc, bytes)?;
    Ok(Text::from_string(digits))
}

// The bytes of each hash.
fn bytes_of_each(alloc: Global, hashes: &[Text]) -> Result<Vec<[u8; 20]>, AllocError>
    requires { AllByRecursion IsHash hashes.now }
    ensures { IfOk result (λ list. map encode_lower list.items ≡ hashes.now) }
{
    let mut list = Vec::with_capacity(alloc, hashes.len())?;
    'packing: for hash in hashes {
        list.push(bytes_of(hash.as_str()))?;
    }
    Ok(list)
}

// The digits of each hash.
fn digits_of_each(alloc: Global, list: &[[u8; 20]]) -> Result<Vec<Text>, AllocError>
    ensures { IfOk result (λ hashes. hashes.items ≡ map encode_lower list.now) }
{
    let mut hashes = Vec::with_capacity(alloc, list.len())?;
    'unpacking: for bytes in list {
        hashes.push(digits_of(alloc, *bytes)?)?;
    }
    Ok(hashes)
}

impl PackedHash {
    /// The hash with these digits.
    pub fn of(digits: &Text) -> PackedHash
        requires { IsHash digits.now }
        ensures { result ≡ digits.now }
    {
        PackedHash {
            bytes: bytes_of(digits.as_str()),
        }
    }

    /// The digits of the hash.
    pub fn digits(&self, alloc: Global) -> Result<Text, AllocError>
        ensures { IfOk result (λ digits. digits ≡ self.now) }
    {
        digits_of(alloc, self.bytes)
    }
}

impl PackedHashes {
    /// These hashes, in one piece of memory.
    pub fn of(alloc: Global, hashes: &[Text]) -> Result<PackedHashes, AllocError>
        requires { AllByRecursion IsHash hashes.now }
        ensures { IfOk result (λ packed. packed ≡ hashes.now) }
    {
        let list = bytes_of_each(alloc, hashes)?;
        Ok(PackedHashes { list })
    }

    /// The digits of the hash at this index.
    pub fn digits(&self, alloc: Global, at: usize) -> Result<Text, AllocError>
        requires { at < length self.now }
        ensures { IfOk result (λ digits. slice_get self.now at ≡ Some digits) }
    {
        digits_of(alloc, self.list[at])
    }

    /// The digits of each hash.
    pub fn unpack(&self, alloc: Global) -> Result<Vec<Text>, AllocError>
        ensures { IfOk result (λ hashes. hashes.items ≡ self.now) }
    {
        digits_of_each(alloc, self.list.as_slice())
    }
}
