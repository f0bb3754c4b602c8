//! Rows as they are read, each by its id.

use lab_forms_texts::{Moment, Note, Ordinal, PersonCode};

/// A version's own row; who opened it is of the laboratory.
#[derive(Drop)]
pub struct VersionHead {
    /// The row's id.
    pub id: i64,
    /// Its number in the record.
    pub number: Ordinal,
    /// The number of the format of its text.
    pub format: u32,
    /// Who opened it.
    pub opener: PersonCode,
    /// When it was opened.
    pub opened: Moment,
    /// Why it amends the one before it.
    pub reason: Option<Note>,
    /// The id of the laboratory's row of whoever opened it.
    pub lab: i64,
}
