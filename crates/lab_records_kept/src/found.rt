//! A record that was looked up, and what is known about the digests of its versions.
ghost use Rattle.std.specs.Prelude.{◌≡◌, ◌<◌, length, None, Some, IfOk, IfSome, IsTrue, option_and_then, option_map, position, slice_get};
ghost use Rattle.lab_records_kept.specs.Bound.{IsChain};
ghost use Rattle.lab_records_kept.specs.Digests.{digest_of};
ghost use Rattle.lab_records_kept.specs.Lookups.{is_numbered, version_of};

use crate::records::{Record, Version};
use lab_forms_texts::{LabCode, Ordinal, OutOfMemory};
use lab_seal_versions::Digest;
use std::alloc::Global;
use std::marker::Model;

/// A record that was looked up. A contract sees the record.
///
/// If the code of the laboratory is kept with the record, it is known that each later version names
/// the digest of the version before it. `digest_at` then returns the digest that the next version
/// names, and hashes only the last version.
pub struct FoundRecord {
    kept: Record,
    // The code of the laboratory in which the versions are known to be chained.
    chained_in: Option<LabCode>,
}

// `drop` is written out, so that a caller doesn't prove again how each part is dropped.
impl Drop for FoundRecord {
    fn drop(self) {
        let FoundRecord {
            kept: _,
            chained_in: _,
        } = self;
    }
}

impl Model for FoundRecord {
    ghost use Rattle.std.specs.Prelude.{None, IfSome};
    ghost use Rattle.lab_records_kept.specs.declared.records.Record.{Record as WholeRecord};

    ghost Value = { WholeRecord };

    ghost use Rattle.lab_records_kept.specs.Bound.{IsChain};

    ghost view = { λ found. found.kept };

    ghost invariant = { λ found.
        IfSome found.chained_in (λ lab. IsChain lab found.kept None found.kept.versions) };
}

impl FoundRecord {
    /// Makes a found record without knowledge of its digests. It takes no memory.
    pub fn new(kept: Record) -> FoundRecord
        ensures { result ≡ kept }
    {
        FoundRecord {
            kept,
            chained_in: None,
        }
    }

    /// Makes a found record in which each later version names the digest of the version before, in
    /// the laboratory with the code. It takes no memory.
    pub fn chained(kept: Record, lab: LabCode) -> FoundRecord
        requires { IsChain lab kept None kept.versions }
        ensures { result ≡ kept }
    {
        FoundRecord {
            kept,
            chained_in: Some(lab),
        }
    }

    /// The record.
    pub fn kept(&self) -> &Record
        ensures { result.now ≡ self.now }
    {
        &self.kept
    }

    /// Returns the record only.
    pub fn into_kept(self) -> Record
        ensures { result ≡ self }
    {
        let FoundRecord {
            kept,
            chained_in: _,
        } = self;
        kept
    }

    /// Returns the place of the version with the number.
    pub fn place_of(&self, number: Ordinal) -> Option<usize>
        ensures value { option_and_then (slice_get self.now.versions) result
            ≡ version_of self.now.versions number }
        ensures within { IfSome result (λ place. place < length self.now.versions) }
    {
        place_of_version(self.kept.versions.as_slice(), number)
    }

    /// Returns the digest of the version at the place, in the laboratory with the code. The only
    /// error is that memory ran out.
    ///
    /// # Errors
    /// Memory ran out.
    pub fn digest_at(
        &self,
        alloc: Global,
        lab: &LabCode,
        place: usize,
        version: &Version,
    ) -> Result<Digest, OutOfMemory>
        requires { slice_get self.now.versions place ≡ Some version.now }
        ensures { IfOk result (λ digest. digest ≡ digest_of lab.now self.now version.now) }
    {
        match self.named_digest(lab, place) {
            Some(digest) => Ok(digest),
            None => self.kept.digest_of(alloc, lab, version),
        }
    }

    // The digest of the version at the place, if the next version is known to name it.
    fn named_digest(&self, lab: &LabCode, place: usize) -> Option<Digest>
        requires { place < length self.now.versions }
        ensures { IfSome result (λ digest. option_map (digest_of lab.now self.now)
            (slice_get self.now.versions place) ≡ Some digest) }
    {
        if !self.is_chained_in(lab) {
            return None;
        }
        let next = self.kept.versions.as_slice().get(place + 1)?;
        let amendment = next.origin.amendment().as_ref()?;
        Some(amendment.previous)
    }

    // Whether it is known that each later version names the digest of the version before it, in the
    // laboratory with the code.
    fn is_chained_in(&self, lab: &LabCode) -> bool
        ensures { IsTrue result → IsChain lab.now self.now None self.now.versions }
    {
        match &self.chained_in {
            Some(code) => code.as_str() == lab.as_str(),
            None => false,
        }
    }
}

/// Returns the place of the version with the number.
pub fn place_of_version(versions: &[Version], number: Ordinal) -> Option<usize>
    ensures place { result ≡ position (is_numbered number) versions.now }
    ensures within { IfSome result (λ place. place < length versions.now) }
{
    versions
        .iter()
        .position(|version| version.origin.number() == number)
}
