//! The current version: what is kept of a version while its rows are read, and how it is checked.
ghost use Rattle.std.specs.Prelude.{◌≡◌, IfOk, IsSome, OnErr, OnOk, map, option_map};
ghost use Rattle.std.specs.List.{list_any};
ghost use Rattle.std.specs.Str.{bytes_eq};
ghost use Rattle.lab_seal_versions.specs.Origins.{AmendsUnlessFirst};
ghost use Rattle.lab_seal_versions.specs.declared.rows.EntryRow.{EntryRow};
ghost use Rattle.lab_copy_rows.specs.Copies.{wants_approval};
ghost use Rattle.lab_copy.specs.Current.{amendment_behind, amendment_by, begun, with_entry, with_row, with_signature, has_numbers, is_next, has_digest_of_current, has_signatures_of_current, has_persons_of_current, flaw_of_current};
ghost use Rattle.lab_copy.specs.declared.current.CurrentVersion.{CurrentVersion};

use lab_copy_rows::{
    Digest, EntryRow, Flaw, Format, Meaning, Note, Ordinal, OutOfMemory, PersonCode, RecordLine,
    State, VersionLine,
};
use lab_forms_texts::Series;
use lab_seal_versions::{
    Amendment, EntryRows, Origin, VersionParts, digest, state_of, write_version,
};
use std::alloc::Global;
use std::mem;

/// The current version, whose rows are being read: the number of its row, the version with all that
/// its digest covers, the state and the digest in its row, and the meanings and signers of its
/// signatures.
pub struct CurrentVersion {
    row: u64,
    parts: VersionParts,
    state: State,
    digest: Digest,
    meanings: Series<Meaning>,
    signers: Series<PersonCode>,
}

// `drop` is written out, so that a caller doesn't prove again how each part is dropped.
impl Drop for CurrentVersion {
    fn drop(self) {
        let CurrentVersion {
            row: _,
            parts: _,
            state: _,
            digest: _,
            meanings: _,
            signers: _,
        } = self;
    }
}

impl CurrentVersion {
    /// Makes the version that begins in the row, of the record, after the version before.
    ///
    /// # Errors
    /// Memory ran out.
    pub fn begin(
        alloc: Global,
        row: u64,
        about: &RecordLine,
        before: &Option<CurrentVersion>,
        line: VersionLine,
    ) -> Result<CurrentVersion, OutOfMemory>
        requires { AmendsUnlessFirst line.number (amendment_behind before.now line) }
        ensures { IfOk result (λ current. current ≡ begun row about.now before.now line) }
    {
        let form = about.form.copy()?;
        let sample = about.sample.copy()?;
        let previous = digest_of(before);
        Ok(CurrentVersion {
            row,
            parts: VersionParts {
                format: line.format,
                lab: line.lab,
                record_number: line.record_number,
                origin: origin_of(line.number, line.reason, previous),
                form,
                form_version: about.form_version,
                sample,
                opener: line.opener,
                opened: line.opened,
                rows: EntryRows::new(Vec::new(alloc)),
            },
            state: line.state,
            digest: line.digest,
            meanings: Series::new(alloc),
            signers: Series::new(alloc),
        })
    }

    /// Keeps an entry.
    ///
    /// # Errors
    /// Memory ran out.
    pub fn enter(&mut self, alloc: Global, row: EntryRow) -> Result<(), OutOfMemory>
        ensures { OnOk result (self.new ≡ with_entry row self.old) }
    {
        enter_row(&mut self.parts, alloc, row)
    }

    /// Keeps a signature.
    ///
    /// # Errors
    /// Memory ran out.
    pub fn sign(&mut self, person: PersonCode, meaning: Meaning) -> Result<(), OutOfMemory>
        ensures { OnOk result (self.new ≡ with_signature person meaning self.old) }
    {
        self.meanings.push(meaning)?;
        self.signers.push(person)?;
        Ok(())
    }

    /// The digest in the version's row.
    pub fn digest(&self) -> Digest
        ensures { result ≡ self.now.digest }
    {
        self.digest
    }

    /// Whether the numbers of an entry or a signature are those of the version.
    pub fn has_numbers(&self, record_number: Ordinal, number: Ordinal) -> bool
        ensures { result ≡ has_numbers record_number number self.now }
    {
        record_number == self.parts.record_number && number == self.parts.origin.number()
    }

    /// Whether a version row is that of the next version, and this version is released or rejected.
    pub fn is_followed_by(&self, line: &VersionLine) -> bool
        ensures { result ≡ is_next line.now self.now }
    {
        line.record_number == self.parts.record_number
            && line.number.get() == self.parts.origin.number().get() + 1
            && self.state.is_settled()
    }

    /// Returns what is wrong with the version, after all its rows were read. It makes the text of
    /// the version for this.
    ///
    /// # Errors
    /// Memory ran out.
    pub fn check(&self, alloc: Global) -> Result<Option<Flaw>, OutOfMemory>
        ensures { IfOk result (λ shown. shown ≡ flaw_of_current self.now) }
    {
        if !self.has_digest(alloc)? {
            return Ok(Some(Flaw::Digest(self.row)));
        }
        if !(self.has_signatures() && self.has_persons()) {
            return Ok(Some(Flaw::OnePerson(self.row)));
        }
        Ok(None)
    }

    // Whether the digest in the row is that of the version's text.
    fn has_digest(&self, alloc: Global) -> Result<bool, OutOfMemory>
        ensures { IfOk result (λ has. has ≡ has_digest_of_current self.now) }
    {
        let text = write_version(alloc, &self.parts)?;
        Ok(digest(&text).bytes() == self.digest.bytes())
    }

    // Whether the signatures make the state in the row.
    fn has_signatures(&self) -> bool
        ensures { result ≡ has_signatures_of_current self.now }
    {
        match state_of(self.meanings.as_slice(), wants_approval(self.parts.format)) {
            Some(state) => state.word() == self.state.word(),
            None => false,
        }
    }

    // Whether the author entered a row, no other signer entered one, and the third isn't the
    // second.
    fn has_persons(&self) -> bool
        ensures { result ≡ has_persons_of_current self.now }
    {
        match self.signers.as_slice() {
            [] => true,
            [author] => self.has_entered(author),
            [author, second] => self.has_entered(author) && !self.has_entered(second),
            [author, second, third, ..] => {
                self.has_entered(author)
                    && !self.has_entered(second)
                    && !self.has_entered(third)
                    && *third != *second
            }
        }
    }

    fn has_entered(&self, person: &PersonCode) -> bool
        ensures { result ≡ list_any (bytes_eq person.now)
            (map (λ (row : EntryRow). row.person) self.now.parts.rows) }
    {
        has_row_of(self.parts.rows.rows(), person)
    }
}

/// Makes the version that begins in the row, if the row of a record came before.
///
/// # Errors
/// Memory ran out.
pub fn begin(
    alloc: Global,
    row: u64,
    about: &Option<RecordLine>,
    before: &Option<CurrentVersion>,
    line: VersionLine,
) -> Result<Option<CurrentVersion>, OutOfMemory>
    requires { AmendsUnlessFirst line.number (amendment_behind before.now line) }
    ensures value { IfOk result (λ version. version
        ≡ option_map (λ about. begun row about before.now line) about.now) }
    ensures memory { OnErr result (IsSome about.now) }
{
    match about {
        Some(about) => Ok(Some(CurrentVersion::begin(alloc, row, about, before, line)?)),
        None => Ok(None),
    }
}

/// Keeps an entry of the current version, if there is one.
///
/// # Errors
/// Memory ran out.
pub fn enter(
    version: &mut Option<CurrentVersion>,
    alloc: Global,
    row: EntryRow,
) -> Result<(), OutOfMemory>
    ensures kept { OnOk result (version.new ≡ option_map (with_entry row) version.old) }
    ensures memory { OnErr result (IsSome version.old) }
{
    match version {
        Some(version) => version.enter(alloc, row),
        None => Ok(()),
    }
}

/// Keeps a signature of the current version, if there is one.
///
/// # Errors
/// Memory ran out.
pub fn sign(
    version: &mut Option<CurrentVersion>,
    person: PersonCode,
    meaning: Meaning,
) -> Result<(), OutOfMemory>
    ensures kept { OnOk result (version.new
        ≡ option_map (with_signature person meaning) version.old) }
    ensures memory { OnErr result (IsSome version.old) }
{
    match version {
        Some(version) => version.sign(person, meaning),
        None => Ok(()),
    }
}

// Whether the person entered one of the rows.
fn has_row_of(rows: &[EntryRow], person: &PersonCode) -> bool
    ensures { result ≡ list_any (λ (row : EntryRow). bytes_eq person.now row.person) rows.now }
{
    rows.iter()
        .any(|row| person.as_str() == row.person.as_str())
}

// Adds an entry to the rows of a version.
fn enter_row(parts: &mut VersionParts, alloc: Global, row: EntryRow) -> Result<(), OutOfMemory>
    ensures { OnOk result (parts.new ≡ with_row row parts.old) }
{
    let mut rows = mem::replace(&mut parts.rows, EntryRows::new(Vec::new(alloc))).into_rows();
    let done = rows.push(row);
    parts.rows = EntryRows::new(rows);
    done?;
    Ok(())
}

// The digest of the current version.
fn digest_of(version: &Option<CurrentVersion>) -> Option<Digest>
    ensures { result ≡ option_map (λ (current : CurrentVersion). current.digest) version.now }
{
    match version {
        Some(version) => Some(version.digest),
        None => None,
    }
}

// The origin of a version. Every version but the first has a reason and a previous digest.
fn origin_of(number: Ordinal, reason: Option<Note>, previous: Option<Digest>) -> Origin
    requires { AmendsUnlessFirst number (amendment_by reason previous) }
    ensures { result ≡ record { number = number; amendment = amendment_by reason previous } }
{
    let Some(reason) = reason else {
        return Origin::first();
    };
    let Some(previous) = previous else {
        return Origin::first();
    };
    match Origin::amending(number, Amendment { previous, reason }) {
        Some(origin) => origin,
        None => unreachable!(),
    }
}

// Whether an approval is wanted. Only the newer format states that.
fn wants_approval(format: Format) -> bool
    ensures { result ≡ wants_approval format }
{
    match format {
        Format::One => false,
        Format::Two { approval } => approval,
    }
}
