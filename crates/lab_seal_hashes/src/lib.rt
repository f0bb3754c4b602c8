//! Digests, keyed hashes, and the secrets that are checked with them: SHA-256 (FIPS 180-4), HMAC
//! (RFC 2104), PBKDF2 (RFC 8018), the verifiers of passwords, the tokens of sessions and the halves
//! of one-time words. No call takes memory.
#![tactic(auto)]

mod digests;
mod hashing;
mod hexadecimal;
mod keyed;
mod stretching;
mod verifiers;
mod words;

pub use digests::Digest;
pub use hashing::digest;
pub use keyed::hmac;
pub use stretching::pbkdf2;
pub use verifiers::{Verifier, VerifierParts};
pub use words::{Half, Token, founder_salts, salt};
