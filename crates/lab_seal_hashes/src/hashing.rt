//! The hash function SHA-256.
ghost use Rattle.std.specs.Prelude.{◌≡◌};
ghost use Rattle.sha2.specs.Sha256.{sha256};

use crate::Digest;
use sha2::{Digest as Hash, Sha256};

/// Returns the SHA-256 digest of a text (FIPS 180-4).
pub fn digest(text: &[u8]) -> Digest
    ensures { result ≡ sha256 text.now }
{
    Digest::from_bytes(Sha256::digest(text))
}
