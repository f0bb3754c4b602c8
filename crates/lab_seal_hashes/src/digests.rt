//! The digests of SHA-256.
ghost use Rattle.std.specs.Prelude.{◌≡◌, ◌↔◌, length, IsSome, IfSome};
ghost use Rattle.hex.specs.Hex.{encode_lower, IsBytes};
ghost use Rattle.lab_seal_hashes.specs.Digits.{AreLowerDigits, bytes_of_digits};

use crate::hexadecimal::{bytes_of_digits, write_digits};
use std::marker::Model;

/// A digest of SHA-256 (FIPS 180-4), 32 bytes.
///
/// A contract sees it as the list of its bytes.
#[derive(Clone, Copy, Debug, PartialEq, Eq)]
pub struct Digest {
    sum: [u8; 32],
}

impl Model for Digest {
    ghost use Rattle.std.specs.Prelude.{List, ℕ};

    ghost Value = { List ℕ };

    ghost view = { λ digest. digest.sum };

    ghost inverse = { λ bytes. record { sum = bytes } };
}

impl Digest {
    /// Makes the digest with these bytes.
    pub fn from_bytes(bytes: [u8; 32]) -> Digest
        ensures { result ≡ bytes }
    {
        Digest { sum: bytes }
    }

    /// Reads a digest from its 64 lower-case hexadecimal digits.
    pub fn from_digits(digits: &[u8]) -> Option<Digest>
        ensures value { result ≡ bytes_of_digits 32 digits.now }
        ensures exact { IsSome result ↔ AreLowerDigits 64 digits.now }
        ensures spelled { IfSome result (λ digest. digits.now ≡ encode_lower digest) }
    {
        let bytes = bytes_of_digits(digits)?;
        Some(Digest::from_bytes(bytes))
    }

    /// The bytes of the digest.
    pub fn bytes(&self) -> [u8; 32]
        ensures { result ≡ self.now }
    {
        self.sum
    }

    /// Returns the digest as 64 lower-case hexadecimal digits.
    pub fn digits(&self) -> [u8; 64]
        ensures digits { result ≡ encode_lower self.now }
        ensures bytes { (length self.now ≡ 32) × IsBytes self.now }
    {
        let mut digits = [0; 64];
        write_digits(&self.bytes(), &mut digits);
        digits
    }
}
