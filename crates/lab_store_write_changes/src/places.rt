//! The place after the rows that a parent has.

ghost use Rattle.std.specs.Prelude.{◌≡◌, ◌+◌, filter, length, IfOk};
ghost use Rattle.lab_store_write.specs.Calls.{AnswersTrying, Finds};
ghost use Rattle.lab_store_write.specs.Causes.{IsTooGreat};
ghost use Rattle.lab_store_write_changes.specs.Private.FieldsShown.{is_field_of, is_choice_of};
ghost use Rattle.lab_store_write_changes.specs.Private.VersionsShown.{is_entry_of, is_signature_of};
ghost use Rattle.lab_store_write_changes.specs.Tried.{Only, asking_fields, asking_choices, asking_entries, asking_signatures};

use lab_store_write::{RowId, Writable, place_below};
use sqlite::Error;

/// Returns the place after the fields of the form.
///
/// # Errors
/// The store failed, or memory ran out.
pub(crate) fn field_place<W: Writable>(tx: &mut W, parent: RowId) -> Result<u64, Error>
    ensures counts { AnswersTrying (Only (asking_fields parent.id)) W.lender W.state
        (λ place. Finds (λ t. place ≡ length (filter (is_field_of parent.id) t.fields) + 1))
        tx.old tx.new result }
    ensures fits { IfOk result (λ place. ¬ IsTooGreat place) }
{
    place_below(
        tx,
        "SELECT id FROM fields WHERE form = ?1 ORDER BY id",
        parent,
    )
}

/// Returns the place after the choices of the field.
///
/// # Errors
/// The store failed, or memory ran out.
pub(crate) fn choice_place<W: Writable>(tx: &mut W, parent: RowId) -> Result<u64, Error>
    ensures counts { AnswersTrying (Only (asking_choices parent.id)) W.lender W.state
        (λ place. Finds (λ t. place ≡ length (filter (is_choice_of parent.id) t.choices) + 1))
        tx.old tx.new result }
    ensures fits { IfOk result (λ place. ¬ IsTooGreat place) }
{
    place_below(
        tx,
        "SELECT id FROM choices WHERE field = ?1 ORDER BY id",
        parent,
    )
}

/// Returns the place after the entries of the version.
///
/// # Errors
/// The store failed, or memory ran out.
pub(crate) fn entry_place<W: Writable>(tx: &mut W, parent: RowId) -> Result<u64, Error>
    ensures counts { AnswersTrying (Only (asking_entries parent.id)) W.lender W.state
        (λ place. Finds (λ t. place ≡ length (filter (is_entry_of parent.id) t.entries) + 1))
        tx.old tx.new result }
    ensures fits { IfOk result (λ place. ¬ IsTooGreat place) }
{
    place_below(
        tx,
        "SELECT id FROM entries WHERE version = ?1 ORDER BY id",
        parent,
    )
}

/// Returns the place after the signatures of the version.
///
/// # Errors
/// The store failed, or memory ran out.
pub(crate) fn signature_place<W: Writable>(tx: &mut W, parent: RowId) -> Result<u64, Error>
    ensures counts { AnswersTrying (Only (asking_signatures parent.id)) W.lender W.state
        (λ place. Finds (λ t. place ≡ length (filter (is_signature_of parent.id) t.signatures) + 1))
        tx.old tx.new result }
    ensures fits { IfOk result (λ place. ¬ IsTooGreat place) }
{
    place_below(
        tx,
        "SELECT id FROM signatures WHERE version = ?1 ORDER BY id",
        parent,
    )
}
