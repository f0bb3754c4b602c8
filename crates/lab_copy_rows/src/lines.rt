//! Lines: what the rows of a copy state. Each kind of row has its own parts.
ghost use Rattle.std.specs.Prelude.{◌≡◌};
ghost use Rattle.lab_copy_rows.specs.Rows.{edition_key};

use lab_seal_versions::{
    Digest, EntryRow, Format, Key, LabCode, Moment, Name, Note, Ordinal, PersonCode, Seal,
    SealParts, State,
};

/// The rules that a copy follows. The key in its second row names them.
#[derive(Clone, Copy, Debug, PartialEq, Eq)]
pub enum Edition {
    /// The older rules, which don't have approvals.
    One,
    /// The rules of new copies.
    Two,
}

impl Edition {
    /// The key in the copy row.
    pub fn key(&self) -> &'static str
        ensures { result.now ≡ edition_key self.now }
    {
        match self {
            Edition::One => "1",
            Edition::Two => "2",
        }
    }
}

/// What the copy row states: which records were asked for, and who asked.
#[derive(Drop)]
pub struct CopyLine {
    /// The rules that the copy follows.
    pub edition: Edition,
    /// The laboratory.
    pub lab: LabCode,
    /// The number of the first record that was asked for.
    pub from: Ordinal,
    /// The number of the last record that was asked for.
    pub to: Ordinal,
    /// Who asked for the copy; `None` if the copy was made on the machine of the desk.
    pub person: Option<PersonCode>,
    /// The laboratory's name.
    pub name: Name,
    /// When the copy was made.
    pub moment: Moment,
}

/// What a record row states.
#[derive(Drop)]
pub struct RecordLine {
    /// The laboratory.
    pub lab: LabCode,
    /// The record's number.
    pub record_number: Ordinal,
    /// The version of the form.
    pub form_version: Ordinal,
    /// The key of the form with which the record is filled in.
    pub form: Key,
    /// The sample that the record is about.
    pub sample: Name,
}

/// What a version row states.
#[derive(Drop)]
pub struct VersionLine {
    /// The laboratory.
    pub lab: LabCode,
    /// The record's number.
    pub record_number: Ordinal,
    /// The version's number.
    pub number: Ordinal,
    /// The format of the version's text.
    pub format: Format,
    /// The state that the version's signatures make.
    pub state: State,
    /// Who opened the version.
    pub opener: PersonCode,
    /// When the version was opened.
    pub opened: Moment,
    /// Why there is another version. The first version has no reason.
    pub reason: Option<Note>,
    /// The digest of the version's text.
    pub digest: Digest,
}

/// What an entry row states.
#[derive(Drop)]
pub struct EntryLine {
    /// The laboratory.
    pub lab: LabCode,
    /// The record's number.
    pub record_number: Ordinal,
    /// The version's number.
    pub version: Ordinal,
    /// What was entered, who entered it, when and why.
    pub row: EntryRow,
}

/// What a signature row states.
#[derive(Drop)]
pub struct SignatureLine {
    /// The record's number.
    pub record_number: Ordinal,
    /// The version's number.
    pub version: Ordinal,
    /// What was signed, who signed, as what, when and why. The laboratory is one of these parts.
    pub parts: SealParts,
    /// The seal.
    pub seal: Seal,
}

/// The most rows of one kind that an end row can state.
pub const LAST_COUNT: u64 = 1_000_000_000_000;

/// The number of rows of each kind in a copy.
#[derive(Clone, Copy, Debug, PartialEq, Eq)]
pub struct Counts {
    /// The number of record rows.
    pub records: u64,
    /// The number of version rows.
    pub versions: u64,
    /// The number of entry rows.
    pub entries: u64,
    /// The number of signature rows.
    pub signatures: u64,
}

/// What the end row states.
#[derive(Drop)]
pub struct EndLine {
    /// The laboratory.
    pub lab: LabCode,
    /// The number of rows of each kind in the copy.
    pub counts: Counts,
}

/// What a row states, if it isn't the header.
#[derive(Drop)]
pub enum Line {
    /// The copy row: which records were asked for.
    Copy(CopyLine),
    /// A record begins.
    Record(RecordLine),
    /// A version of the record begins.
    Version(VersionLine),
    /// A row of the version.
    Entry(EntryLine),
    /// A signature of the version.
    Signature(SignatureLine),
    /// The copy ends.
    End(EndLine),
}
