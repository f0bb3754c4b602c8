//! What is made of the random words of a tick: tokens, halves of one-time words, and salts.
ghost use Rattle.std.specs.Prelude.{◌≡◌, ◌↔◌, ◌<◌, ◌*◌, length, IsSome, IfSome};
ghost use Rattle.hex.specs.Hex.{encode_lower};
ghost use Rattle.sha2.specs.Sha256.{sha256};
ghost use Rattle.lab_seal_hashes.specs.Digits.{AreLowerDigits, bytes_of_digits};
ghost use Rattle.lab_seal_hashes.specs.Words.{big_endian, token_of, half_of, salt_at, salt_of, founder_salts};

use crate::hexadecimal::{bytes_of_digits, write_digits};
use crate::{Digest, digest};
use std::marker::Model;

/// The token of a session, 32 secret bytes.
///
/// A contract sees it as the list of its bytes.
#[derive(Clone, Copy)]
pub struct Token {
    secret: [u8; 32],
}

impl Model for Token {
    ghost use Rattle.std.specs.Prelude.{List, ℕ};

    ghost Value = { List ℕ };

    ghost view = { λ token. token.secret };

    ghost inverse = { λ bytes. record { secret = bytes } };
}

impl Token {
    /// Makes the token of words 0 to 3 of a tick.
    pub fn from_words(words: &[u64; 8]) -> Token
        ensures { result ≡ token_of words.now }
    {
        let mut bytes = [0; 32];
        write_words(&words[..4], &mut bytes);
        Token::from_bytes(bytes)
    }

    /// Makes the token with these bytes.
    pub fn from_bytes(bytes: [u8; 32]) -> Token
        ensures { result ≡ bytes }
    {
        Token { secret: bytes }
    }

    /// Reads a token from its 64 lower-case hexadecimal digits, with which a request names its
    /// session.
    pub fn from_digits(digits: &[u8]) -> Option<Token>
        ensures value { result ≡ bytes_of_digits 32 digits.now }
        ensures exact { IsSome result ↔ AreLowerDigits 64 digits.now }
        ensures spelled { IfSome result (λ token. digits.now ≡ encode_lower token) }
    {
        let bytes = bytes_of_digits(digits)?;
        Some(Token::from_bytes(bytes))
    }

    /// The bytes of the token.
    pub fn bytes(&self) -> [u8; 32]
        ensures { result ≡ self.now }
    {
        self.secret
    }

    /// Returns the token as 64 lower-case hexadecimal digits.
    pub fn digits(&self) -> [u8; 64]
        ensures { result ≡ encode_lower self.now }
    {
        let mut digits = [0; 64];
        write_digits(&self.secret, &mut digits);
        digits
    }

    /// Returns the SHA-256 digest of the token's bytes, which is kept in place of the token.
    pub fn digest(&self) -> Digest
        ensures { result ≡ sha256 self.now }
    {
        digest(&self.bytes())
    }
}

/// A half of a one-time word, 16 secret bytes.
///
/// A contract sees it as the list of its bytes.
#[derive(Clone, Copy)]
pub struct Half {
    bytes: [u8; 16],
}

impl Model for Half {
    ghost use Rattle.std.specs.Prelude.{List, ℕ};

    ghost Value = { List ℕ };

    ghost view = { λ half. half.bytes };

    ghost inverse = { λ bytes. record { bytes = bytes } };
}

impl Half {
    /// Makes the half of words 0 and 1 of a tick.
    pub fn from_words(words: &[u64; 8]) -> Half
        ensures { result ≡ half_of words.now }
    {
        let mut bytes = [0; 16];
        write_words(&words[..2], &mut bytes);
        Half { bytes }
    }

    /// Returns the half as 32 lower-case hexadecimal digits.
    pub fn digits(&self) -> [u8; 32]
        ensures { result ≡ encode_lower self.now }
    {
        let mut digits = [0; 32];
        write_digits(&self.bytes, &mut digits);
        digits
    }
}

/// Returns the salt that words 4 and 5 of a tick make.
pub fn salt(words: &[u64; 8]) -> [u8; 16]
    ensures { result ≡ salt_of words.now }
{
    salt_at(words, 2)
}

/// Returns the salts of the three founders of a laboratory, made of words 0 and 1, words 2 and 3,
/// and words 4 and 5 of a tick.
pub fn founder_salts(words: &[u64; 8]) -> [[u8; 16]; 3]
    ensures { result ≡ founder_salts words.now }
{
    [salt_at(words, 0), salt_at(words, 1), salt_at(words, 2)]
}

// The salt that this pair of words makes.
fn salt_at(words: &[u64; 8], pair: usize) -> [u8; 16]
    requires { pair < 4 }
    ensures { result ≡ salt_at words.now pair }
{
    let mut bytes = [0; 16];
    write_words(&words[2 * pair..2 * pair + 2], &mut bytes);
    bytes
}

// Writes the bytes of the words, the most significant byte first.
fn write_words(words: &[u64], bytes: &mut [u8])
    requires { length bytes.old ≡ 8 * length words.now }
    ensures { bytes.new ≡ big_endian words.now }
{
    for (i, word) in words.iter().enumerate() {
        bytes[8 * i..8 * i + 8].copy_from_slice(&word.to_be_bytes());
    }
}
