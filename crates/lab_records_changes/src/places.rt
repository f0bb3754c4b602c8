//! The places of persons, sessions and records in their lists, and the changes of one record.
ghost use Rattle.std.specs.Prelude.{◌≡◌, ◌≤◌, bytes_eq, is_some, length, position, IsSome, OnOk, OnErr};
ghost use Rattle.std.specs.List.{position_or_len};
ghost use Rattle.lab_people_access.specs.Persons.{has_code};
ghost use Rattle.lab_people_access.specs.Sessions.{has_token};
ghost use Rattle.lab_records_kept.specs.Lookups.{comes_before, has_number, last_of, version_of};
ghost use Rattle.lab_records_kept.specs.Changes.{in_last, in_version, with_row, with_signature, entered_in, opened_in, signed_in};

use lab_forms_texts::{Text, TextRule};
use lab_records_kept::{
    Digest, EntryRow, EntryRows, FormVersion, Key, Ordinal, OutOfMemory, Person, PersonCode,
    Record, Series, Session, Signature, Version, place_of_version,
};
use std::alloc::Global;
use std::cmp::Ordering;
use std::mem;

/// Returns the place of the person with the code, if there is one.
pub fn place_of_person(persons: &[Person], code: &PersonCode) -> Option<usize>
    ensures place { result ≡ position (λ one. bytes_eq one.code code.now) persons.now }
    ensures found { is_some result ≡ has_code persons.now code.now }
{
    first_of_code(persons, code)
}

fn first_of_code(persons: &[Person], code: &PersonCode) -> Option<usize>
    ensures { result ≡ position (λ one. bytes_eq one.code code.now) persons.now }
{
    persons
        .iter()
        .position(|one| one.code.as_str() == code.as_str())
}

// Whether one text is before the other in the order of their bytes.
fn comes_before<R: TextRule>(one: &Text<R>, other: &Text<R>) -> bool
    ensures { result ≡ comes_before one.now other.now }
{
    match one.cmp(other) {
        Ordering::Less => true,
        Ordering::Equal | Ordering::Greater => false,
    }
}

/// Returns the place at which a person with the code is added: before the first person with a later
/// code, or at the end.
#[tactic(auto, using(crate::proofs::Replacing::place_found, crate::proofs::Replacing::place_at_end, crate::proofs::Replacing::place_within))]
pub fn place_for_person(persons: &[Person], code: &PersonCode) -> usize
    ensures value { result ≡ position_or_len (λ one. comes_before code.now one.code) persons.now }
    ensures within { result ≤ length persons.now }
{
    match later_person(persons, code) {
        Some(place) => place,
        None => persons.len(),
    }
}

fn later_person(persons: &[Person], code: &PersonCode) -> Option<usize>
    ensures { result ≡ position (λ one. comes_before code.now one.code) persons.now }
{
    persons.iter().position(|one| comes_before(code, &one.code))
}

/// Returns the place at which a version of a form with the code is added.
#[tactic(auto, using(crate::proofs::Replacing::place_found, crate::proofs::Replacing::place_at_end, crate::proofs::Replacing::place_within))]
pub fn place_for_form(forms: &[FormVersion], code: &Key) -> usize
    ensures value { result ≡ position_or_len (λ one. comes_before code.now one.code) forms.now }
    ensures within { result ≤ length forms.now }
{
    match later_form(forms, code) {
        Some(place) => place,
        None => forms.len(),
    }
}

fn later_form(forms: &[FormVersion], code: &Key) -> Option<usize>
    ensures { result ≡ position (λ one. comes_before code.now one.code) forms.now }
{
    forms.iter().position(|one| comes_before(code, &one.code))
}

/// Returns the place of the session with the token, if there is one.
pub fn place_of_session(sessions: &[Session], token: &Digest) -> Option<usize>
    ensures place { result ≡ position (λ one. bytes_eq one.token token.now) sessions.now }
    ensures found { is_some result ≡ has_token sessions.now token.now }
{
    first_of_token(sessions, token)
}

fn first_of_token(sessions: &[Session], token: &Digest) -> Option<usize>
    ensures { result ≡ position (λ one. bytes_eq one.token token.now) sessions.now }
{
    sessions.iter().position(|one| one.token == *token)
}

/// Returns the place of the record with the number, if there is one.
pub fn place_of_record(records: &[Record], number: Ordinal) -> Option<usize>
    ensures { result ≡ position (has_number number) records.now }
{
    records.iter().position(|kept| kept.number == number)
}

/// Adds a copy of the row to the last version. Fails only if memory runs out, and only if there is
/// a version; the record is then as before.
///
/// # Errors
/// Memory ran out.
pub fn enter(kept: &mut Record, alloc: Global, row: &EntryRow) -> Result<(), OutOfMemory>
    ensures ok { OnOk result (kept.new ≡ entered_in row.now kept.old) }
    ensures err { OnErr result (kept.new ≡ kept.old) }
    ensures memory { OnErr result (IsSome (last_of kept.old.versions)) }
{
    let mut versions = mem::replace(&mut kept.versions, Series::new(alloc)).into_vec();
    let done = enter_last(&mut versions, alloc, row);
    kept.versions = Series::from_vec(versions);
    done?;
    Ok(())
}

/// Adds a copy of the version. Fails only if memory runs out; the record is then as before.
///
/// # Errors
/// Memory ran out.
pub fn open(kept: &mut Record, version: &Version) -> Result<(), OutOfMemory>
    ensures ok { OnOk result (kept.new ≡ opened_in version.now kept.old) }
    ensures err { OnErr result (kept.new ≡ kept.old) }
{
    let version = version.copy()?;
    kept.versions.push(version)?;
    Ok(())
}

/// Adds a copy of the signature to the version with the number. Fails only if memory runs out, and
/// only if there is that version; the record is then as before.
///
/// # Errors
/// Memory ran out.
pub fn sign(
    kept: &mut Record,
    alloc: Global,
    number: Ordinal,
    signature: &Signature,
) -> Result<(), OutOfMemory>
    ensures ok { OnOk result (kept.new ≡ signed_in number signature.now kept.old) }
    ensures err { OnErr result (kept.new ≡ kept.old) }
    ensures memory { OnErr result (IsSome (version_of kept.old.versions number)) }
{
    let mut versions = mem::replace(&mut kept.versions, Series::new(alloc)).into_vec();
    let done = sign_in(&mut versions, number, signature);
    kept.versions = Series::from_vec(versions);
    done?;
    Ok(())
}

// Adds a row to the last version.
fn enter_last(versions: &mut [Version], alloc: Global, row: &EntryRow) -> Result<(), OutOfMemory>
    ensures ok { OnOk result (versions.new ≡ in_last (with_row row.now) versions.old) }
    ensures err { OnErr result (versions.new ≡ versions.old) }
    ensures memory { OnErr result (IsSome (last_of versions.old)) }
{
    let count = versions.len();
    if count == 0 {
        return Ok(());
    }
    enter_version(&mut versions[count - 1], alloc, row)
}

// Adds a row.
fn enter_version(version: &mut Version, alloc: Global, row: &EntryRow) -> Result<(), OutOfMemory>
    ensures ok { OnOk result (version.new ≡ with_row row.now version.old) }
    ensures err { OnErr result (version.new ≡ version.old) }
{
    let row = row.copy()?;
    let mut rows = mem::replace(&mut version.rows, EntryRows::new(Vec::new(alloc))).into_rows();
    let done = rows.push(row);
    version.rows = EntryRows::new(rows);
    done?;
    Ok(())
}

// Adds a signature to the version with the number.
fn sign_in(
    versions: &mut [Version],
    number: Ordinal,
    signature: &Signature,
) -> Result<(), OutOfMemory>
    ensures ok { OnOk result
        (versions.new ≡ in_version number (with_signature signature.now) versions.old) }
    ensures err { OnErr result (versions.new ≡ versions.old) }
    ensures memory { OnErr result (IsSome (version_of versions.old number)) }
{
    let Some(place) = place_of_version(versions, number) else {
        return Ok(());
    };
    sign_version(&mut versions[place], signature)
}

// Adds a signature.
fn sign_version(version: &mut Version, signature: &Signature) -> Result<(), OutOfMemory>
    ensures ok { OnOk result (version.new ≡ with_signature signature.now version.old) }
    ensures err { OnErr result (version.new ≡ version.old) }
{
    let signature = signature.copy()?;
    version.signatures.push(signature)?;
    Ok(())
}
