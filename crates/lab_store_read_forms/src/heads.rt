//! Rows as they are read, each with its id.

use lab_forms::Kind;
use lab_forms_texts::{Key, Name, Ordinal};
use lab_records_kept::FormVersion;

/// The own row of a version of a form.
#[derive(Debug, Drop)]
pub struct FormHead {
    /// The row's id.
    pub id: i64,
    /// The code of the form.
    pub code: Key,
    /// The number of the version.
    pub version: Ordinal,
    /// Whether its records need a third person's approval.
    pub approval: bool,
}

/// A version of a form, with the id of its row.
#[derive(Drop)]
pub struct FormAt {
    /// The row's id.
    pub id: i64,
    /// The version of the form.
    pub form: FormVersion,
}

/// A field's own row. Its choices stand in rows of their own.
#[derive(Debug, Drop)]
pub struct FieldHead {
    /// The row's id.
    pub id: i64,
    /// The key of the field in its form.
    pub key: Key,
    /// The label that people read beside the field.
    pub label: Name,
    /// Whether a record must have a value for the field before it is signed.
    pub required: bool,
    /// The values that the field takes; a choice has no names yet.
    pub kind: Kind,
}
