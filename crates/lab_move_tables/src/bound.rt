//! Whether signatures are bound to what they sign.

ghost use Rattle.std.specs.Prelude.{◌≡◌, ◌<◌, ℕ, List, length, Some, IfOk, IfSome, option_map, slice_get};
ghost use Rattle.std.specs.List.{list_all};
ghost use Rattle.lab_records_kept.specs.Digests.{digest_of, sealed_parts};
ghost use Rattle.lab_move_tables.specs.Chained.{IsChained};
ghost use Rattle.lab_move_tables.specs.Private.Tests.{is_bound_by, is_bound_record};

use lab_forms_texts::{LabCode, OutOfMemory};
use lab_records_kept::{Record, SealParts, Signature, Version};
use lab_seal_versions::{Digest, seal};
use std::alloc::Global;

// What the seal of a signature covers, as copies.
fn sealed_parts(lab: &LabCode, signature: &Signature) -> Result<SealParts, OutOfMemory>
    ensures { IfOk result (λ parts. parts ≡ sealed_parts lab.now signature.now) }
{
    let lab = lab.copy()?;
    let person = signature.person.copy()?;
    let name = signature.name.copy()?;
    let meaning = signature.meaning.copy()?;
    Ok(SealParts {
        version: signature.digest,
        lab,
        person,
        name,
        meaning,
        moment: signature.moment,
    })
}

// Whether a signature names the digest, and bears the seal that its parts come to.
fn is_bound_by(lab: &LabCode, digest: Digest, signature: &Signature) -> Result<bool, OutOfMemory>
    ensures { IfOk result (λ yes. yes ≡ is_bound_by lab.now digest signature.now) }
{
    let parts = sealed_parts(lab, signature)?;
    Ok(signature.digest.bytes() == digest.bytes() && signature.seal.bytes() == seal(&parts).bytes())
}

// Whether all of them do.
fn are_bound_by(
    lab: &LabCode,
    digest: Digest,
    signatures: &[Signature],
) -> Result<bool, OutOfMemory>
    ensures { IfOk result (λ yes. yes ≡ list_all (is_bound_by lab.now digest) signatures.now) }
{
    for signature in signatures {
        if !is_bound_by(lab, digest, signature)? {
            return Ok(false);
        }
    }
    Ok(true)
}

// The digest of the version at the place, if the next version names it.
fn named_digest(kept: &Record, place: usize) -> Option<Digest>
    requires { place < length kept.now.versions }
    ensures { IfSome result (λ digest. (lab : List ℕ) → IsChained lab kept.now →
        option_map (digest_of lab kept.now) (slice_get kept.now.versions place) ≡ Some digest) }
{
    let next = kept.versions.as_slice().get(place + 1)?;
    let amendment = next.origin.amendment().as_ref()?;
    Some(amendment.previous)
}

// The digest of the version at the place, which is hashed only if it is the last one.
fn digest_at(
    alloc: Global,
    lab: &LabCode,
    kept: &Record,
    place: usize,
    version: &Version,
) -> Result<Digest, OutOfMemory>
    requires chained { IsChained lab.now kept.now }
    requires there { slice_get kept.now.versions place ≡ Some version.now }
    ensures { IfOk result (λ digest. digest ≡ digest_of lab.now kept.now version.now) }
{
    match named_digest(kept, place) {
        Some(digest) => Ok(digest),
        None => kept.digest_of(alloc, lab, version),
    }
}

/// Whether the signatures of a record are bound, in the laboratory of the code.
///
/// # Errors
/// Memory ran out.
pub(crate) fn is_bound_record(
    alloc: Global,
    lab: &LabCode,
    kept: &Record,
) -> Result<bool, OutOfMemory>
    requires chained { IsChained lab.now kept.now }
    ensures { IfOk result (λ yes. yes ≡ is_bound_record lab.now kept.now) }
{
    for (place, version) in kept.versions.as_slice().iter().enumerate() {
        let digest = digest_at(alloc, lab, kept, place, version)?;
        if !are_bound_by(lab, digest, version.signatures.as_slice())? {
            return Ok(false);
        }
    }
    Ok(true)
}
