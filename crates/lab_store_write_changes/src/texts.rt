//! Texts that may be NULL.

ghost use Rattle.std.specs.Prelude.{◌≡◌, option_map};
ghost use Rattle.sqlite_value.specs.declared.value.Value.TheVariants.{Text};
ghost use Rattle.sqlite_value.specs.Value.{owned};
ghost use Rattle.sqlite.specs.Values.{bound_value};
ghost use Rattle.lab_store_tables.specs.Rows.{optional};
ghost use Rattle.lab_store_tables.specs.Columns.{reason_column};
ghost use Rattle.lab_store_write_changes.specs.Private.Texts.{amendment_reason};

use lab_forms_texts::Note;
use lab_seal_versions::{Amendment, Meaning};
use sqlite::types::ValueRef;

/// Returns a note, or NULL.
pub(crate) fn note_or_null(note: &Option<Note>) -> ValueRef<'_>
    ensures { bound_value (owned result) ≡ optional Text note.now }
{
    match note {
        Some(note) => ValueRef::Text(note.as_str().as_bytes()),
        None => ValueRef::Null,
    }
}

/// Returns the reason of a rejection, or NULL: the other meanings have none.
pub(crate) fn reason_or_null(meaning: &Meaning) -> ValueRef<'_>
    ensures { bound_value (owned result) ≡ optional Text (reason_column meaning.now) }
{
    match meaning {
        Meaning::Rejection(reason) => ValueRef::Text(reason.as_str().as_bytes()),
        Meaning::Authorship | Meaning::Review | Meaning::Approval => ValueRef::Null,
    }
}

/// Returns why a version amends the version before it, or NULL: the first version has no reason.
pub(crate) fn cause_or_null(amendment: &Option<Amendment>) -> ValueRef<'_>
    ensures { bound_value (owned result)
        ≡ optional Text (option_map amendment_reason amendment.now) }
{
    match amendment {
        Some(amendment) => ValueRef::Text(amendment.reason.as_str().as_bytes()),
        None => ValueRef::Null,
    }
}
