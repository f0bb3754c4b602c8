//! Which version of a record a version is, and what it amends: the first version amends nothing,
//! every later one amends the version before.
ghost use Rattle.std.specs.Prelude.{◌≡◌, IfOk, None, option_map};
ghost use Rattle.lab_seal_versions.specs.Origins.{AmendsUnlessFirst, amending};

use lab_forms_texts::{Note, Ordinal, OutOfMemory};
use lab_seal_hashes::Digest;
use std::alloc::AllocError;
use std::marker::Model;

/// What a later version amends, and why.
#[derive(Debug)]
pub struct Amendment {
    /// The digest of the version before.
    pub previous: Digest,
    /// Why there is another version.
    pub reason: Note,
}

// `drop` is written out, so that a caller doesn't prove again how each part is dropped.
impl Drop for Amendment {
    fn drop(self) {
        let Amendment {
            previous: _,
            reason: _,
        } = self;
    }
}

impl Amendment {
    /// A copy.
    ///
    /// # Errors
    /// Memory ran out.
    pub fn copy(&self) -> Result<Amendment, OutOfMemory>
        ensures { IfOk result (λ copy. copy ≡ self.now) }
    {
        Ok(self.clone()?)
    }
}

impl Clone for Amendment {
    ghost use Rattle.std.specs.Prelude.{◌≡◌};

    ghost is_clone = { λ amendment copy. copy ≡ amendment };

    fn clone(&self) -> Result<Amendment, AllocError> {
        let reason = self.reason.clone()?;
        Ok(Amendment {
            previous: self.previous,
            reason,
        })
    }
}

/// The number of a version, and what the version amends.
#[derive(Debug)]
pub struct OriginParts {
    /// The version's number.
    pub number: Ordinal,
    /// What the version amends, and why.
    pub amendment: Option<Amendment>,
}

// `drop` is written out, so that a caller doesn't prove again how each part is dropped.
impl Drop for OriginParts {
    fn drop(self) {
        let OriginParts {
            number: _,
            amendment: _,
        } = self;
    }
}

impl Clone for OriginParts {
    ghost use Rattle.std.specs.Prelude.{◌≡◌};

    ghost is_clone = { λ parts copy. copy ≡ parts };

    fn clone(&self) -> Result<OriginParts, AllocError> {
        let amendment = self.amendment.clone()?;
        Ok(OriginParts {
            number: self.number,
            amendment,
        })
    }
}

/// The origin of a version: the first version amends nothing, every later one amends the version
/// before.
///
/// A contract sees its parts.
#[derive(Debug)]
pub struct Origin {
    parts: OriginParts,
}

// `drop` is written out, so that a caller doesn't prove again how each part is dropped.
impl Drop for Origin {
    fn drop(self) {
        let Origin { parts: _ } = self;
    }
}

impl Model for Origin {
    ghost use Rattle.lab_seal_versions.specs.declared.origins.OriginParts.{OriginParts};
    ghost use Rattle.lab_seal_versions.specs.Origins.{AmendsUnlessFirst};

    ghost Value = { OriginParts };

    ghost view = { λ origin. origin.parts };

    ghost invariant = { λ origin. AmendsUnlessFirst origin.parts.number origin.parts.amendment };
}

impl Origin {
    /// Makes the origin of a first version.
    pub fn first() -> Origin
        ensures { result ≡ record { number = 1; amendment = None } }
    {
        Origin {
            parts: OriginParts {
                number: Ordinal::FIRST,
                amendment: None,
            },
        }
    }

    /// Makes the origin of a later version, if the number is that of a later version.
    pub fn amending(number: Ordinal, amendment: Amendment) -> Option<Origin>
        ensures { result ≡ amending number amendment }
    {
        if number == Ordinal::FIRST {
            return None;
        }
        Some(Origin {
            parts: OriginParts {
                number,
                amendment: Some(amendment),
            },
        })
    }

    /// Makes the origin with these parts.
    pub fn of(parts: OriginParts) -> Origin
        requires { AmendsUnlessFirst parts.number parts.amendment }
        ensures { result ≡ parts }
    {
        Origin { parts }
    }

    /// The version's number.
    pub fn number(&self) -> Ordinal
        ensures { result ≡ self.now.number }
    {
        self.parts.number
    }

    /// What the version amends, and why.
    pub fn amendment(&self) -> &Option<Amendment>
        ensures value { result.now ≡ self.now.amendment }
        ensures order { AmendsUnlessFirst self.now.number self.now.amendment }
    {
        &self.parts.amendment
    }

    /// A copy.
    ///
    /// # Errors
    /// Memory ran out.
    pub fn copy(&self) -> Result<Origin, OutOfMemory>
        ensures { IfOk result (λ copy. copy ≡ self.now) }
    {
        Ok(self.clone()?)
    }
}

impl Clone for Origin {
    ghost use Rattle.std.specs.Prelude.{◌≡◌};

    ghost is_clone = { λ origin copy. copy ≡ origin };

    fn clone(&self) -> Result<Origin, AllocError> {
        let parts = self.parts.clone()?;
        Ok(Origin { parts })
    }
}
