//! The persons, sessions, forms and records that have a code, a token or a number.
ghost use Rattle.std.specs.Prelude.{◌≡◌, bytes_eq, find, option_copied};
ghost use Rattle.lab_people_access.specs.Persons.{person_of};
ghost use Rattle.lab_people_access.specs.Sessions.{session_of};
ghost use Rattle.lab_records_kept.specs.Lookups.{last_form, exact_form, record_of, record_about};

use lab_records_kept::{
    Digest, FormVersion, Key, Name, Ordinal, Person, PersonCode, Record, Session,
};

/// Returns the person who has or had the code.
#[tactic(auto, using(crate::proofs::Finds::person_found))]
pub fn person_of<'a>(persons: &'a [Person], code: &PersonCode) -> Option<&'a Person>
    ensures { option_copied result ≡ person_of persons.now code.now }
{
    first_person(persons, code)
}

fn first_person<'a>(persons: &'a [Person], code: &PersonCode) -> Option<&'a Person>
    ensures { option_copied result ≡ find (λ one. bytes_eq one.code code.now) persons.now }
{
    persons
        .iter()
        .find(|one| one.code.as_str() == code.as_str())
}

/// Returns the session whose token has the digest, open or closed.
#[tactic(auto, using(crate::proofs::Finds::session_found))]
pub fn session_of<'a>(sessions: &'a [Session], digest: &Digest) -> Option<&'a Session>
    ensures { option_copied result ≡ session_of sessions.now digest.now }
{
    first_session(sessions, digest)
}

fn first_session<'a>(sessions: &'a [Session], digest: &Digest) -> Option<&'a Session>
    ensures { option_copied result ≡ find (λ one. bytes_eq one.token digest.now) sessions.now }
{
    sessions.iter().find(|one| one.token == *digest)
}

/// Returns the last version of a form: the one that was made last.
pub fn last_form<'a>(forms: &'a [FormVersion], code: &Key) -> Option<&'a FormVersion>
    ensures { option_copied result ≡ last_form forms.now code.now }
{
    forms
        .iter()
        .rev()
        .find(|one| one.code.as_str() == code.as_str())
}

/// Returns the version of a form with the number.
pub fn exact_form<'a>(
    forms: &'a [FormVersion],
    code: &Key,
    version: Ordinal,
) -> Option<&'a FormVersion>
    ensures { option_copied result ≡ exact_form forms.now code.now version }
{
    forms.iter().find(|one| one.code.as_str() == code.as_str() && one.version == version)
}

/// Returns the record with the number.
pub fn record_of(records: &[Record], number: Ordinal) -> Option<&Record>
    ensures { option_copied result ≡ record_of records.now number }
{
    records.iter().find(|kept| kept.number == number)
}

/// Returns the record of a form and a sample, with any version of the form.
pub fn record_about<'a>(records: &'a [Record], form: &Key, sample: &Name) -> Option<&'a Record>
    ensures { option_copied result ≡ record_about records.now form.now sample.now }
{
    records.iter().find(|kept| {
        kept.form.code.as_str() == form.as_str() && kept.sample.as_str() == sample.as_str()
    })
}
