//! Signatures and their seals.
ghost use Rattle.std.specs.Prelude.{◌≡◌, ◌↔◌, IfOk, IsSome, IfSome};
ghost use Rattle.hex.specs.Hex.{encode_lower};
ghost use Rattle.lab_seal_hashes.specs.Digits.{AreLowerDigits, bytes_of_digits};
ghost use Rattle.lab_seal_versions.specs.Seals.{meaning_word, meaning_reason};

use lab_forms_texts::{LabCode, Moment, Name, Note, OutOfMemory, PersonCode};
use lab_seal_hashes::Digest;
use std::alloc::AllocError;
use std::marker::Model;

/// The seal of a signature, 32 bytes.
///
/// A contract sees it as the list of its bytes.
#[derive(Clone, Copy, Debug, PartialEq, Eq)]
pub struct Seal {
    sum: Digest,
}

impl Model for Seal {
    ghost use Rattle.std.specs.Prelude.{List, ℕ};

    ghost Value = { List ℕ };

    ghost view = { λ seal. seal.sum };

    ghost inverse = { λ bytes. record { sum = bytes } };
}

impl Seal {
    /// Makes the seal with these bytes.
    pub fn from_bytes(bytes: [u8; 32]) -> Seal
        ensures { result ≡ bytes }
    {
        Seal {
            sum: Digest::from_bytes(bytes),
        }
    }

    /// Reads a seal from its 64 lower-case hexadecimal digits.
    pub fn from_digits(digits: &[u8]) -> Option<Seal>
        ensures value { result ≡ bytes_of_digits 32 digits.now }
        ensures exact { IsSome result ↔ AreLowerDigits 64 digits.now }
        ensures spelled { IfSome result (λ seal. digits.now ≡ encode_lower seal) }
    {
        let sum = Digest::from_digits(digits)?;
        Some(Seal { sum })
    }

    /// The bytes of the seal.
    pub fn bytes(&self) -> [u8; 32]
        ensures { result ≡ self.now }
    {
        self.sum.bytes()
    }

    /// Returns the seal as 64 lower-case hexadecimal digits.
    pub fn digits(&self) -> [u8; 64]
        ensures { result ≡ encode_lower self.now }
    {
        self.sum.digits()
    }
}

/// The meaning of a signature: what a person signs a version as.
#[derive(Debug, Drop)]
pub enum Meaning {
    /// The author's signature.
    Authorship,
    /// The signature of the second person. It releases the version if its form wants no approval.
    Review,
    /// The signature that rejects a version, and the reason.
    Rejection(Note),
    /// The signature of the third person. It releases the version.
    Approval,
}

impl Meaning {
    /// The word of the meaning.
    pub fn word(&self) -> &'static str
        ensures { result.now ≡ meaning_word self.now }
    {
        match self {
            Meaning::Authorship => "authorship",
            Meaning::Review => "review",
            Meaning::Rejection(_) => "rejection",
            Meaning::Approval => "approval",
        }
    }

    /// The reason of a rejection. It is empty for the other meanings, which have no reason.
    pub fn reason(&self) -> &str
        ensures { result.now ≡ meaning_reason self.now }
    {
        match self {
            Meaning::Authorship | Meaning::Review | Meaning::Approval => "",
            Meaning::Rejection(reason) => reason.as_str(),
        }
    }

    /// A copy.
    ///
    /// # Errors
    /// Memory ran out.
    pub fn copy(&self) -> Result<Meaning, OutOfMemory>
        ensures { IfOk result (λ copy. copy ≡ self.now) }
    {
        Ok(self.clone()?)
    }
}

impl Clone for Meaning {
    ghost use Rattle.std.specs.Prelude.{◌≡◌};

    ghost is_clone = { λ meaning copy. copy ≡ meaning };

    fn clone(&self) -> Result<Meaning, AllocError> {
        match self {
            Meaning::Authorship => Ok(Meaning::Authorship),
            Meaning::Review => Ok(Meaning::Review),
            Meaning::Rejection(reason) => Ok(Meaning::Rejection(reason.clone()?)),
            Meaning::Approval => Ok(Meaning::Approval),
        }
    }
}

/// A signature, with all that its seal covers.
#[derive(Debug, Drop)]
pub struct SealParts {
    /// The digest of the version that is signed.
    pub version: Digest,
    /// The laboratory.
    pub lab: LabCode,
    /// Who signs.
    pub person: PersonCode,
    /// The person's printed name.
    pub name: Name,
    /// What the person signs the version as.
    pub meaning: Meaning,
    /// When the person signs.
    pub moment: Moment,
}

impl SealParts {
    /// A copy.
    ///
    /// # Errors
    /// Memory ran out.
    pub fn copy(&self) -> Result<SealParts, OutOfMemory>
        ensures { IfOk result (λ copy. copy ≡ self.now) }
    {
        Ok(self.clone()?)
    }
}

impl Clone for SealParts {
    ghost use Rattle.std.specs.Prelude.{◌≡◌};

    ghost is_clone = { λ parts copy. copy ≡ parts };

    fn clone(&self) -> Result<SealParts, AllocError> {
        let lab = self.lab.clone()?;
        let person = self.person.clone()?;
        let name = self.name.clone()?;
        let meaning = self.meaning.clone()?;
        Ok(SealParts {
            version: self.version,
            lab,
            person,
            name,
            meaning,
            moment: self.moment,
        })
    }
}
