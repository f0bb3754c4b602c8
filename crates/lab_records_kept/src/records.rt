//! Records with their versions and signatures, and the versions of the forms with which they are
//! filled in.
ghost use Rattle.std.specs.Prelude.{◌≡◌, IfOk, map, option_copied};
ghost use Rattle.lab_seal_versions.specs.States.{state_of as state_by};
ghost use Rattle.lab_records_kept.specs.Lookups.{last_of, version_of};
ghost use Rattle.lab_records_kept.specs.Values.{meaning_of, version_state, has_entered};

use lab_forms::Form;
use lab_forms_texts::{Key, Moment, Name, Ordinal, OutOfMemory, PersonCode, Series};
use lab_seal_versions::{Digest, EntryRows, Format, Meaning, Origin, Seal, State};
use std::alloc::AllocError;

/// One version of a form.
pub struct FormVersion {
    /// The key of the form.
    pub code: Key,
    /// The number of the version, from 1.
    pub version: Ordinal,
    /// The form: what the version asks for.
    pub form: Form,
}

impl Drop for FormVersion {
    fn drop(self) {
        let FormVersion {
            code: _,
            version: _,
            form: _,
        } = self;
    }
}

/// A signature of a version, with the printed name, the moment and the meaning (21 CFR 11.50(a)).
pub struct Signature {
    /// Who signed.
    pub person: PersonCode,
    /// The person's printed name.
    pub name: Name,
    /// What the version was signed as.
    pub meaning: Meaning,
    /// When it was signed.
    pub moment: Moment,
    /// The digest of the version that was signed.
    pub digest: Digest,
    /// The seal that binds the signature to that version.
    pub seal: Seal,
}

impl Drop for Signature {
    fn drop(self) {
        let Signature {
            person: _,
            name: _,
            meaning: _,
            moment: _,
            digest: _,
            seal: _,
        } = self;
    }
}

/// A version of a record.
pub struct Version {
    /// The format of the version's text.
    pub format: Format,
    /// The number of the version, and what a later version amends and why.
    pub origin: Origin,
    /// Who opened the version.
    pub opener: PersonCode,
    /// When the version was opened.
    pub opened: Moment,
    /// The rows of the version, in the order in which they were entered.
    pub rows: EntryRows,
    /// The signatures of the version, in the order in which they were given.
    pub signatures: Series<Signature>,
}

impl Drop for Version {
    fn drop(self) {
        let Version {
            format: _,
            origin: _,
            opener: _,
            opened: _,
            rows: _,
            signatures: _,
        } = self;
    }
}

/// A record: a form filled in for a sample.
pub struct Record {
    /// The number of the record in the laboratory.
    pub number: Ordinal,
    /// The version of the form with which the record is filled in.
    pub form: FormVersion,
    /// The sample that the record is about.
    pub sample: Name,
    /// The versions of the record, the first version first.
    pub versions: Series<Version>,
}

impl Drop for Record {
    fn drop(self) {
        let Record {
            number: _,
            form: _,
            sample: _,
            versions: _,
        } = self;
    }
}

impl FormVersion {
    /// Returns a copy. The only error is that memory ran out.
    ///
    /// # Errors
    /// Memory ran out.
    pub fn copy(&self) -> Result<FormVersion, OutOfMemory>
        ensures { IfOk result (λ copy. copy ≡ self.now) }
    {
        Ok(self.clone()?)
    }
}

impl Clone for FormVersion {
    ghost use Rattle.std.specs.Prelude.{◌≡◌};

    ghost is_clone = { λ form copy. copy ≡ form };

    fn clone(&self) -> Result<FormVersion, AllocError> {
        let code = self.code.clone()?;
        let form = self.form.clone()?;
        Ok(FormVersion {
            code,
            version: self.version,
            form,
        })
    }
}

impl Signature {
    /// Returns a copy. The only error is that memory ran out.
    ///
    /// # Errors
    /// Memory ran out.
    pub fn copy(&self) -> Result<Signature, OutOfMemory>
        ensures { IfOk result (λ copy. copy ≡ self.now) }
    {
        Ok(self.clone()?)
    }
}

impl Clone for Signature {
    ghost use Rattle.std.specs.Prelude.{◌≡◌};

    ghost is_clone = { λ signature copy. copy ≡ signature };

    fn clone(&self) -> Result<Signature, AllocError> {
        let person = self.person.clone()?;
        let name = self.name.clone()?;
        let meaning = self.meaning.clone()?;
        Ok(Signature {
            person,
            name,
            meaning,
            moment: self.moment,
            digest: self.digest,
            seal: self.seal,
        })
    }
}

impl Version {
    /// Whether the person entered a row of the version.
    pub fn has_entered(&self, person: &PersonCode) -> bool
        ensures { result ≡ has_entered person.now self.now }
    {
        self.rows
            .rows()
            .iter()
            .any(|row| row.person.as_str() == person.as_str())
    }

    /// Returns a copy. The only error is that memory ran out.
    ///
    /// # Errors
    /// Memory ran out.
    pub fn copy(&self) -> Result<Version, OutOfMemory>
        ensures { IfOk result (λ copy. copy ≡ self.now) }
    {
        Ok(self.clone()?)
    }
}

impl Clone for Version {
    ghost use Rattle.std.specs.Prelude.{◌≡◌};

    ghost is_clone = { λ version copy. copy ≡ version };

    fn clone(&self) -> Result<Version, AllocError> {
        let origin = self.origin.clone()?;
        let opener = self.opener.clone()?;
        let rows = self.rows.clone()?;
        let signatures = self.signatures.clone()?;
        Ok(Version {
            format: self.format,
            origin,
            opener,
            opened: self.opened,
            rows,
            signatures,
        })
    }
}

impl Record {
    /// Returns only the version of a form that the record fills in, and the sample.
    pub fn into_heading(self) -> (FormVersion, Name)
        ensures form { result.0 ≡ self.form }
        ensures sample { result.1 ≡ self.sample }
    {
        let Record {
            number: _,
            form,
            sample,
            versions: _,
        } = self;
        (form, sample)
    }

    /// The version with the number.
    pub fn version(&self, number: Ordinal) -> Option<&Version>
        ensures { option_copied result ≡ version_of self.now.versions number }
    {
        self.versions
            .as_slice()
            .iter()
            .find(|version| version.origin.number() == number)
    }

    /// The last version.
    pub fn current(&self) -> Option<&Version>
        ensures { option_copied result ≡ last_of self.now.versions }
    {
        self.versions.last()
    }

    /// The state of a version of the record.
    pub fn state_of(&self, version: &Version) -> Option<State>
        ensures { result ≡ version_state self.now version.now }
    {
        state_by(version.signatures.as_slice(), self.form.form.approval())
    }

    /// Returns a copy. The only error is that memory ran out.
    ///
    /// # Errors
    /// Memory ran out.
    pub fn copy(&self) -> Result<Record, OutOfMemory>
        ensures { IfOk result (λ copy. copy ≡ self.now) }
    {
        Ok(self.clone()?)
    }
}

impl Clone for Record {
    ghost use Rattle.std.specs.Prelude.{◌≡◌};

    ghost is_clone = { λ kept copy. copy ≡ kept };

    fn clone(&self) -> Result<Record, AllocError> {
        let form = self.form.clone()?;
        let sample = self.sample.clone()?;
        let versions = self.versions.clone()?;
        Ok(Record {
            number: self.number,
            form,
            sample,
            versions,
        })
    }
}

// The state that signatures make, in order; `None` if no version has such signatures.
fn state_by(signatures: &[Signature], approval: bool) -> Option<State>
    ensures { result ≡ state_by (map meaning_of signatures.now) approval }
{
    match (signatures, approval) {
        ([], _) => Some(State::Open),
        ([author], _) => match &author.meaning {
            Meaning::Authorship => Some(State::Signed),
            Meaning::Review | Meaning::Rejection(_) | Meaning::Approval => None,
        },
        ([author, second], _) => match (&author.meaning, &second.meaning) {
            (Meaning::Authorship, Meaning::Review) => Some(if approval {
                State::Reviewed
            } else {
                State::Released
            }),
            (Meaning::Authorship, Meaning::Rejection(_)) => Some(State::Rejected),
            _ => None,
        },
        ([author, second, third], true) => {
            match (&author.meaning, &second.meaning, &third.meaning) {
                (Meaning::Authorship, Meaning::Review, Meaning::Approval) => Some(State::Released),
                (Meaning::Authorship, Meaning::Review, Meaning::Rejection(_)) => {
                    Some(State::Rejected)
                }
                _ => None,
            }
        }
        _ => None,
    }
}
