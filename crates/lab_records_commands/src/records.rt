//! The results of commands that make something of forms and records.
ghost use Rattle.std.specs.Prelude.{◌≡◌, ◌∷◌, [], Ok, false, IfOk, IsTrue, OnErr, if◌then◌else◌};
ghost use Rattle.lab_people_access.specs.Attempts.{signing_attempt};
ghost use Rattle.lab_people_access.specs.Sessions.{signed_session};
ghost use Rattle.lab_records_rules.specs.Making.{making, opening_record};
ghost use Rattle.lab_records_versions.specs.Entering.{entering, is_table_made, amending};
ghost use Rattle.lab_records_versions.specs.Signing.{is_code_wanted, is_digest_made_at};
ghost use Rattle.lab_records_machine.specs.Done.{then_done, form_done, record_done, entry_done, amendment_done, signature_done, signing_done};
ghost use Rattle.lab_records_machine.specs.Makings.{is_digest_made_by, is_made_of};

use lab_forms::Form;
use lab_forms_texts::{Key, Moment, Name, Note, Ordinal, OutOfMemory, PersonCode};
use lab_people_access::{Person, Session, attempt_signing};
use lab_records_kept::{Change, Deed, FormVersion, Meaning, Occasion, Record, Signature, Slice};
use lab_records_machine::{Done, Reply, single, triple};
use lab_records_rules::{
    Altered, AmendmentMade, CommandFault, EntryMade, Item, Refusal, SignatureMade, Signing, Typed,
    make_form, open_record,
};
use lab_records_versions::{amend, enter, is_code_wanted, sign};
use lab_seal_versions::Digest;
use std::alloc::Global;

/// Returns the result of making a form. Fails only if memory runs out, and only if the result isn't
/// a refusal.
///
/// # Errors
/// Memory ran out.
pub fn making_done(
    alloc: Global,
    code: Key,
    form: Form,
    last: Option<FormVersion>,
) -> Result<Done, OutOfMemory>
    ensures done { IfOk result (λ done. done ≡ then_done (making code form last) form_done) }
    ensures memory { OnErr result
        (IsTrue (is_made_of (then_done (making code form last) form_done))) }
{
    match make_form(code, form, last) {
        Ok(form) => form_done(alloc, form),
        Err(refusal) => Ok(Done::Refused(refusal)),
    }
}

// The result after a version of a form was made.
fn form_done(alloc: Global, form: FormVersion) -> Result<Done, OutOfMemory>
    ensures { IfOk result (λ done. done ≡ form_done form) }
{
    let told = form.code.copy()?;
    let made = form.code.copy()?;
    let version = form.version;
    let changes = single(alloc, Change::FormAdded(form))?;
    Ok(Done::Made(
        Reply::FormMade {
            code: told,
            version,
        },
        Deed::Form {
            form: made,
            version,
        },
        changes,
    ))
}

/// Returns the result of opening a record. Fails only if memory runs out, and only if the result
/// isn't a refusal.
///
/// # Errors
/// Memory ran out.
pub fn opening_record_done(
    alloc: Global,
    slice: &mut Slice,
    sample: Name,
    caller: PersonCode,
    moment: Moment,
) -> Result<Done, OutOfMemory>
    ensures done { IfOk result (λ done. done ≡ then_done (opening_record slice.old.form
        slice.old.filed sample caller moment slice.old.counts.records) record_done) }
    ensures memory { OnErr result (IsTrue (is_made_of (then_done (opening_record slice.old.form
        slice.old.filed sample caller moment slice.old.counts.records) record_done))) }
{
    let form = slice.form.take();
    let filed = slice.filed.take();
    let records = slice.counts.records;
    match open_record(alloc, form, filed, sample, caller, moment, records) {
        Ok(kept) => record_done(alloc, kept),
        Err(fault) => match fault {
            CommandFault::Refused(refusal) => Ok(Done::Refused(refusal)),
            CommandFault::Memory => Err(OutOfMemory),
        },
    }
}

// The result after a record was opened.
fn record_done(alloc: Global, kept: Record) -> Result<Done, OutOfMemory>
    ensures { IfOk result (λ done. done ≡ record_done kept) }
{
    let number = kept.number;
    let changes = single(alloc, Change::RecordAdded(kept))?;
    Ok(Done::Made(
        Reply::RecordOpened {
            number,
            version: Ordinal::FIRST,
        },
        Deed::Record { record: number },
        changes,
    ))
}

/// Returns the result of entering a value. Fails only if memory runs out, and only if the result
/// isn't a refusal.
///
/// # Errors
/// Memory ran out.
pub fn entering_done(
    alloc: Global,
    slice: &Slice,
    item: Item,
    reason: Option<Note>,
    caller: PersonCode,
    moment: Moment,
) -> Result<Done, OutOfMemory>
    ensures done { IfOk result (λ done. done
        ≡ then_done (entering slice.now.code slice.now.filed item reason caller moment)
        entry_done) }
    ensures memory { OnErr result (IsTrue (is_made_of (then_done
        (entering slice.now.code slice.now.filed item reason caller moment) entry_done))) }
{
    match enter(
        alloc,
        &slice.code,
        slice.filed_kept(),
        item,
        reason,
        caller,
        moment,
    ) {
        Ok(made) => entry_done(alloc, made),
        Err(fault) => match fault {
            CommandFault::Refused(refusal) => Ok(Done::Refused(refusal)),
            CommandFault::Memory => Err(OutOfMemory),
        },
    }
}

// The result after a value was entered: one more row, whether or not its key already had a value.
fn entry_done(alloc: Global, made: EntryMade) -> Result<Done, OutOfMemory>
    ensures { IfOk result (λ done. done ≡ entry_done made) }
{
    let number = made.number;
    let version = made.version;
    let rows = made.rows;
    let digest = made.digest;
    let key = made.row.key.copy()?;
    let changes = single(
        alloc,
        Change::RowAdded {
            record: number,
            row: made.row,
        },
    )?;
    Ok(Done::Made(
        Reply::Entered {
            number,
            version,
            rows,
            digest,
        },
        Deed::Entry {
            record: number,
            version,
            key,
        },
        changes,
    ))
}

/// Returns the result of amending a record. Fails only if memory runs out, and only from the point
/// where the values are compared with a table.
///
/// # Errors
/// Memory ran out.
#[tactic(auto, using(crate::proofs::MadeBefore::table_was_made))]
pub fn amending_done(
    alloc: Global,
    slice: &Slice,
    reason: Option<Note>,
    altered: &Altered,
    caller: PersonCode,
    moment: Moment,
) -> Result<Done, OutOfMemory>
    ensures done { IfOk result (λ done. done
        ≡ then_done (amending slice.now.code slice.now.filed reason altered.now caller moment)
        amendment_done) }
    ensures memory { OnErr result (IsTrue (is_table_made slice.now.filed reason altered.now)) }
{
    match amend(
        alloc,
        &slice.code,
        slice.filed_kept(),
        reason,
        altered,
        caller,
        moment,
    ) {
        Ok(made) => amendment_done(alloc, made),
        Err(fault) => match fault {
            CommandFault::Refused(refusal) => Ok(Done::Refused(refusal)),
            CommandFault::Memory => Err(OutOfMemory),
        },
    }
}

// The result after an amendment opened a version, with the number of that version.
fn amendment_done(alloc: Global, made: AmendmentMade) -> Result<Done, OutOfMemory>
    ensures { IfOk result (λ done. done ≡ amendment_done made) }
{
    let number = made.number;
    let version = made.version.origin.number();
    let digest = made.digest;
    let changes = single(
        alloc,
        Change::VersionOpened {
            record: number,
            version: made.version,
        },
    )?;
    Ok(Done::Made(
        Reply::Amended {
            number,
            version,
            digest,
        },
        Deed::Amend {
            record: number,
            version,
        },
        changes,
    ))
}

/// A signature that is asked for.
#[derive(Drop)]
pub struct AskedSignature {
    /// The number of the version.
    pub version: Ordinal,
    /// The version's digest, as the person saw it.
    pub digest: Digest,
    /// What the version is signed as.
    pub signing: Signing,
}

/// Returns the result of signing a version: the first signature in a session wants the code, then
/// the password is checked. Fails only if memory runs out, and only from the point where the digest
/// of the version is made.
///
/// # Errors
/// Memory ran out.
pub fn asked_signing_done(
    alloc: Global,
    slice: &Slice,
    moment: Moment,
    session: Session,
    caller: Person,
    asked: AskedSignature,
    password: &Typed,
    code: &Option<PersonCode>,
) -> Result<Done, OutOfMemory>
    ensures done { IfOk result (λ done. done
        ≡ (if is_code_wanted session code.now then Done.Refused Refusal.CodeWanted
        else signing_done slice.now moment session asked.version asked.digest asked.signing
        (signing_attempt caller code.now password.now moment))) }
    ensures memory { OnErr result (IsTrue (if is_code_wanted session code.now then false
        else is_digest_made_by slice.now.filed asked.version asked.signing
        (signing_attempt caller code.now password.now moment))) }
{
    if is_code_wanted(&session, code.as_ref()) {
        return Ok(Done::Refused(Refusal::CodeWanted));
    }
    match attempt_signing(caller, code.as_ref(), password.as_str(), moment) {
        Ok(person) => signing_done(alloc, slice, moment, session, asked, person),
        Err(failure) => Ok(Done::Failed(Occasion::Signing, failure)),
    }
}

// The result of signing by a person whose password was accepted.
#[tactic(auto, using(crate::proofs::MadeBefore::digest_was_made))]
fn signing_done(
    alloc: Global,
    slice: &Slice,
    moment: Moment,
    session: Session,
    asked: AskedSignature,
    person: Person,
) -> Result<Done, OutOfMemory>
    ensures done { IfOk result (λ done. done
        ≡ signing_done slice.now moment session asked.version asked.digest asked.signing
        (Ok person)) }
    ensures memory { OnErr result
        (IsTrue (is_digest_made_at slice.now.filed asked.version asked.signing)) }
{
    match sign(
        alloc,
        &slice.code,
        slice.filed_kept(),
        asked.version,
        asked.digest,
        asked.signing,
        &person,
        moment,
    ) {
        Ok(made) => signature_done(alloc, session, person, made),
        Err(fault) => match fault {
            CommandFault::Refused(refusal) => Ok(Done::Refused(refusal)),
            CommandFault::Memory => Err(OutOfMemory),
        },
    }
}

// The result after a signature was given: the session is marked as one that has signed.
fn signature_done(
    alloc: Global,
    session: Session,
    person: Person,
    made: SignatureMade,
) -> Result<Done, OutOfMemory>
    ensures { IfOk result (λ done. done ≡ signature_done session person made) }
{
    match told_of(&made.signature) {
        Ok(told) => signed_done(alloc, session, person, made, told),
        Err(fault) => {
            drop(session);
            drop(person);
            drop(made);
            Err(fault)
        }
    }
}

// What is stated about a signature: the signature in the reply, and its meaning in the trail.
#[derive(Drop)]
struct Told {
    signature: Signature,
    meaning: Meaning,
}

fn told_of(signature: &Signature) -> Result<Told, OutOfMemory>
    ensures signature { IfOk result (λ told. told.signature ≡ signature.now) }
    ensures meaning { IfOk result (λ told. told.meaning ≡ signature.now.meaning) }
{
    let meaning = signature.meaning.copy()?;
    let signature = signature.copy()?;
    Ok(Told { signature, meaning })
}

fn signed_done(
    alloc: Global,
    session: Session,
    person: Person,
    made: SignatureMade,
    told: Told,
) -> Result<Done, OutOfMemory>
    ensures { IfOk result (λ done. done ≡ Done.Made
        (Reply.Signed told.signature made.state)
        (Deed.Sign made.number made.version told.meaning)
        (Change.PersonSet person ∷ Change.SessionSet (signed_session session)
        ∷ Change.SignatureAdded made.number made.version made.signature ∷ [])) }
{
    let Told { signature, meaning } = told;
    let mut signed = session;
    signed.mark_signed();
    let changes = triple(
        alloc,
        Change::PersonSet(person),
        Change::SessionSet(signed),
        Change::SignatureAdded {
            record: made.number,
            version: made.version,
            signature: made.signature,
        },
    )?;
    Ok(Done::Made(
        Reply::Signed {
            signature,
            state: made.state,
        },
        Deed::Sign {
            record: made.number,
            version: made.version,
            meaning,
        },
        changes,
    ))
}
