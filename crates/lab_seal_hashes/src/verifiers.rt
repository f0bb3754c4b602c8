//! What is kept of a password, and how a password is checked against it.
ghost use Rattle.std.specs.Prelude.{◌≡◌, ◌≤◌};
ghost use Rattle.lab_seal_hashes.specs.Verifiers.{verifier_of, is_verified};

use crate::pbkdf2;
use std::fmt;
use std::marker::Model;

/// The parts of a verifier. They aren't printed.
#[derive(Clone, Copy)]
pub struct VerifierParts {
    /// The salt of the password.
    pub salt: [u8; 16],
    /// The number of rounds of PBKDF2, 1 or more.
    pub rounds: u32,
    /// What PBKDF2 made of the password, the salt and the rounds.
    pub bytes: [u8; 32],
}

/// What is kept in place of a password.
///
/// A contract sees its parts. `Debug` doesn't print them.
#[derive(Clone, Copy)]
pub struct Verifier {
    kept: VerifierParts,
}

impl Model for Verifier {
    ghost use Rattle.std.specs.Prelude.{◌≤◌};
    ghost use Rattle.lab_seal_hashes.specs.declared.verifiers.VerifierParts.{VerifierParts};

    ghost Value = { VerifierParts };

    ghost view = { λ verifier. verifier.kept };

    ghost invariant = { λ verifier. 1 ≤ verifier.kept.rounds };

    ghost inverse = { λ parts. record { kept = parts } };
}

impl fmt::Debug for Verifier {
    ghost use Rattle.std.specs.Prelude.{Some, codes};

    ghost debug_output = { λ _. Some (codes "Verifier") };

    fn fmt<W: fmt::Write>(&self, f: &mut fmt::Formatter<W>) -> fmt::Result {
        f.write_str("Verifier")
    }
}

impl Verifier {
    /// Makes the verifier of a password, with PBKDF2 and HMAC-SHA-256 (RFC 8018, section 5.2).
    pub fn make(password: &[u8], salt: [u8; 16], rounds: u32) -> Verifier
        requires { 1 ≤ rounds }
        ensures { result ≡ verifier_of password.now salt rounds }
    {
        let bytes = pbkdf2(password, &salt, rounds);
        Verifier::from_parts(salt, rounds, bytes)
    }

    /// Makes the verifier with these parts.
    pub fn from_parts(salt: [u8; 16], rounds: u32, bytes: [u8; 32]) -> Verifier
        requires { 1 ≤ rounds }
        ensures { result ≡ record { salt = salt; rounds = rounds; bytes = bytes } }
    {
        Verifier {
            kept: VerifierParts {
                salt,
                rounds,
                bytes,
            },
        }
    }

    /// The parts of the verifier.
    pub fn parts(&self) -> VerifierParts
        ensures value { result ≡ self.now }
        ensures rounds { 1 ≤ result.rounds }
    {
        self.kept
    }

    /// Whether this is a verifier of the password.
    pub fn accepts(&self, password: &[u8]) -> bool
        ensures { result ≡ is_verified self.now password.now }
    {
        let parts = self.parts();
        parts.bytes == pbkdf2(password, &parts.salt, parts.rounds)
    }
}
