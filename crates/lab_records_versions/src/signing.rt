//! How signatures are given (21 CFR 11.50, 11.70 and 11.200(a)).
ghost use Rattle.std.specs.Prelude.{◌≡◌, ◌++◌, ◌∷◌, [], None, is_none, ◌&&◌, map, IfOk, IfErr, IsTrue, option_copied};
ghost use Rattle.std.specs.List.{list_any};
ghost use Rattle.lab_records_kept.specs.Digests.{signature_of};
ghost use Rattle.lab_records_rules.specs.Latest.{noted};
ghost use Rattle.lab_records_kept.specs.Values.{meaning_of, rows_to};
ghost use Rattle.lab_records_rules.specs.Following.{FollowsWhere};
ghost use Rattle.lab_records_versions.specs.Signing.{is_missing, content_refusal, reason_refusal, version_refusal, is_digest_made, is_digest_made_at, is_table_made, signed_meaning, signed_parts, signature_made, signing_record};

use crate::signatures::{
    approval_refusal, digest_refusal, reason_refusal, signer_refusal, state_refusal,
};
use lab_forms::Field;
use lab_forms_texts::{LabCode, Moment, Ordinal, OutOfMemory, PersonCode};
use lab_people_access::Person;
use lab_records_kept::{Record, Signature, Version};
use lab_records_rules::{
    CommandFault, Refusal, SignatureMade, Signing, altered_at, fail, first_versions, latest,
    row_of_key,
};
use lab_seal_versions::{Digest, EntryRow, Meaning, SealParts, state_of};
use std::alloc::Global;
use std::collections::BTreeMap;

/// Signs the version with the number of the record that was looked up, for a person whose password
/// was accepted; `digest` is the digest that the person saw. Memory can run out only from the point
/// where the version's own digest is made, to compare the two.
///
/// # Errors
/// The refusal of the command, or memory ran out.
pub fn sign(
    alloc: Global,
    lab: &LabCode,
    kept: Option<&Record>,
    number: Ordinal,
    digest: Digest,
    signing: Signing,
    person: &Person,
    moment: Moment,
) -> Result<SignatureMade, CommandFault>
    ensures { FollowsWhere (is_digest_made_at (option_copied kept.entry) number signing)
        (signing_record lab.now (option_copied kept.entry) number digest signing person.now moment)
        result }
{
    let Some(kept) = kept else {
        return fail(CommandFault::Refused(Refusal::NoSuchRecord), signing);
    };
    let Some(version) = kept.version(number) else {
        return fail(CommandFault::Refused(Refusal::NoSuchVersion), signing);
    };
    let refusal = match version_refusal(alloc, lab, kept, version, digest, &signing, &person.code) {
        Ok(refusal) => refusal,
        Err(_) => return fail(CommandFault::Memory, signing),
    };
    match refusal {
        Some(refusal) => fail(CommandFault::Refused(refusal), signing),
        None => {
            drop(refusal);
            let meaning = signed_meaning(signing);
            let signature = new_signature(lab, person, meaning, moment, digest)?;
            Ok(signature_made(alloc, kept, version, signature)?)
        }
    }
}

/// Returns the first refusal of a signature of a version. Fails only if memory runs out, and only
/// once the digest of the version has to be made.
///
/// # Errors
/// Memory ran out.
pub fn version_refusal(
    alloc: Global,
    lab: &LabCode,
    kept: &Record,
    version: &Version,
    digest: Digest,
    signing: &Signing,
    person: &PersonCode,
) -> Result<Option<Refusal>, OutOfMemory>
    ensures refusal { IfOk result (λ refusal. refusal
        ≡ version_refusal lab.now kept.now version.now digest signing.now person.now) }
    ensures memory { IfErr result (λ _. IsTrue (is_digest_made kept.now version.now signing.now)) }
{
    if let Some(refusal) = approval_refusal(signing, kept.form.form.approval()) {
        return Ok(Some(refusal));
    }
    if let Some(refusal) = state_refusal(signing, kept.state_of(version)) {
        return Ok(Some(refusal));
    }
    let now = kept.digest_of(alloc, lab, version)?;
    if let Some(refusal) = digest_refusal(now, digest) {
        return Ok(Some(refusal));
    }
    if let Some(refusal) = signer_refusal(signing, version, person) {
        return Ok(Some(refusal));
    }
    if let Some(refusal) = content_refusal(alloc, signing, kept, version.origin.number())? {
        return Ok(Some(refusal));
    }
    Ok(reason_refusal(signing))
}

/// The refusal of an authorship of a version that lacks what its form requires, or that alters
/// nothing. Only for an authorship it takes memory.
///
/// # Errors
/// Memory ran out.
pub fn content_refusal(
    alloc: Global,
    signing: &Signing,
    kept: &Record,
    number: Ordinal,
) -> Result<Option<Refusal>, OutOfMemory>
    ensures refusal { IfOk result (λ refusal.
        refusal ≡ content_refusal signing.now kept.now number) }
    ensures memory { IfErr result (λ _. IsTrue (is_table_made signing.now)) }
{
    match signing {
        Signing::Authorship => {}
        Signing::Review | Signing::Rejection(_) | Signing::Approval => return Ok(None),
    }
    if is_any_missing(alloc, kept, number)? {
        return Ok(Some(Refusal::EntriesMissing));
    }
    if number == Ordinal::FIRST {
        return Ok(None);
    }
    if altered_at(alloc, kept, number)?.as_slice().is_empty() {
        return Ok(Some(Refusal::NothingAltered));
    }
    Ok(None)
}

// Whether a required field of the form has no value at the version with the number.
fn is_any_missing(alloc: Global, kept: &Record, number: Ordinal) -> Result<bool, OutOfMemory>
    ensures { IfOk result (λ missing. missing
        ≡ list_any (is_missing (rows_to number kept.now)) kept.now.form.form.fields) }
{
    let versions = first_versions(kept.versions.as_slice(), number.get() as usize);
    let table = latest(alloc, versions)?;
    for field in kept.form.form.fields() {
        if is_missing(&table, field) {
            return Ok(true);
        }
    }
    Ok(false)
}

// Whether the field is required, and no row is noted under its key.
fn is_missing<'a>(table: &BTreeMap<&'a str, &'a EntryRow>, field: &Field) -> bool
    ensures { result ≡ (field.now.required && is_none (noted table.now field.now.key)) }
{
    field.required && row_of_key(table, &field.key).is_none()
}

// The meaning of the signature. A rejection without a reason was refused before.
fn signed_meaning(signing: Signing) -> Meaning
    requires { reason_refusal signing ≡ None }
    ensures { result ≡ signed_meaning signing }
{
    match signing {
        Signing::Authorship => Meaning::Authorship,
        Signing::Review => Meaning::Review,
        Signing::Rejection(reason) => match reason {
            Some(reason) => Meaning::Rejection(reason),
            None => unreachable!(),
        },
        Signing::Approval => Meaning::Approval,
    }
}

// The signature of the person with that meaning, and its seal.
fn new_signature(
    lab: &LabCode,
    person: &Person,
    meaning: Meaning,
    moment: Moment,
    digest: Digest,
) -> Result<Signature, OutOfMemory>
    ensures { IfOk result (λ signature. signature
        ≡ signature_of (signed_parts lab.now person.now meaning moment digest)) }
{
    let lab = lab.copy()?;
    let code = person.code.copy()?;
    let name = person.name.copy()?;
    Ok(Signature::of_parts(SealParts {
        version: digest,
        lab,
        person: code,
        name,
        meaning,
        moment,
    }))
}

// A signature that was given, and the state of its version with it.
fn signature_made(
    alloc: Global,
    kept: &Record,
    version: &Version,
    signature: Signature,
) -> Result<SignatureMade, OutOfMemory>
    ensures { IfOk result (λ made. made ≡ signature_made kept.now version.now signature) }
{
    let meanings = meanings_with(alloc, version.signatures.as_slice(), &signature.meaning)?;
    Ok(SignatureMade {
        number: kept.number,
        version: version.origin.number(),
        signature,
        state: state_of(&meanings, kept.form.form.approval()),
    })
}

// The meanings of the signatures, and one more after them.
fn meanings_with(
    alloc: Global,
    signatures: &[Signature],
    last: &Meaning,
) -> Result<Vec<Meaning>, OutOfMemory>
    ensures { IfOk result
        (λ meanings. meanings.items ≡ map meaning_of signatures.now ++ last.now ∷ []) }
{
    let mut meanings = Vec::new(alloc);
    for signature in signatures {
        meanings.push(signature.meaning.copy()?)?;
    }
    meanings.push(last.copy()?)?;
    Ok(meanings)
}
