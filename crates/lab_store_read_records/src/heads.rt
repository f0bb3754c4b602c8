//! Rows as they are read, each with its id.

use lab_forms_texts::{Key, LabCode, Moment, Name, Note, Ordinal, PersonCode, Unit};

/// A laboratory's own row.
#[derive(Debug, Drop)]
pub struct LabHead {
    /// The row's id.
    pub id: i64,
    /// The code with which requests name it.
    pub code: LabCode,
    /// Its name.
    pub name: Name,
    /// The moment of its last activity.
    pub last: Moment,
    /// How many stray passwords were given.
    pub strays: u64,
    /// How many record numbers the laboratory has assigned.
    pub records: u64,
    /// How many session numbers the laboratory has assigned.
    pub sessions: u64,
    /// How many trail row numbers the laboratory has assigned.
    pub trail: u64,
}

/// A version's own row.
#[derive(Debug, Drop)]
pub struct VersionHead {
    /// The row's id.
    pub id: i64,
    /// Its number in the record.
    pub number: Ordinal,
    /// The number of the format of its text.
    pub format: u32,
    /// The person who opened it.
    pub opener: PersonCode,
    /// When it was opened.
    pub opened: Moment,
    /// Why it amends the one before it.
    pub reason: Option<Note>,
}

/// An entry's own row.
#[derive(Drop)]
pub struct EntryHead {
    /// The field's key.
    pub key: Key,
    /// The value as it was written.
    pub value: Note,
    /// The value's unit.
    pub unit: Unit,
    /// The id of the person who entered it.
    pub person: i64,
    /// When it was entered.
    pub moment: Moment,
    /// Why it was entered in place of an earlier one.
    pub reason: Option<Note>,
}

/// A record's own row.
#[derive(Debug, Drop)]
pub struct RecordHead {
    /// The row's id.
    pub id: i64,
    /// Its number in the laboratory.
    pub number: Ordinal,
    /// The id of the version of the form that the record follows.
    pub form: i64,
    /// The code of the form.
    pub form_code: Key,
    /// The sample that the record is about.
    pub sample: Name,
    /// The number of its last version.
    pub current: u32,
}
