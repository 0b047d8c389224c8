//! Digests in hexadecimal: the hash columns of rows, and checksums of payloads.
ghost use Rattle.std.specs.Prelude.{◌≡◌, IfOk};
ghost use Rattle.hex.specs.Hex.{encode_lower};
ghost use Rattle.sha1.specs.Sha1.{sha1};

use json_tree::Text;
use sha1::Sha1;
use std::alloc::{AllocError, Global};

/// The SHA-1 digest of the bytes (FIPS 180-4, section 6.1) as 40 lower-case hexadecimal digits. A hash column holds the digest of
/// a canonical text. A command is posted with the digest of its payload as its checksum.
pub fn sha1_hex(alloc: Global, bytes: &[u8]) -> Result<Text, AllocError>
    ensures { IfOk result (λ digits. digits ≡ encode_lower (sha1 bytes.now)) }
{
    let digits = hex::encode(alloc, Sha1::digest(bytes))?;
    Text::from_str(alloc, digits.as_str())
}
