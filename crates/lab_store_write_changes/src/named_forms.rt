//! A version of a form that is named by the key of its table.

ghost use Rattle.std.specs.Prelude.{◌≡◌, Some, IfOk};
ghost use Rattle.sqlite.specs.State.{HasCleanDisk};
ghost use Rattle.lab_store_tables.specs.Changes.{form_named};
ghost use Rattle.lab_store_write.specs.Calls.{AnswersTrying, Finds};
ghost use Rattle.lab_store_write.specs.Causes.{IsShown};
ghost use Rattle.lab_store_write_changes.specs.Private.FormsShown.{forms_shown};
ghost use Rattle.lab_store_write_changes.specs.Tried.{Only, asking_form};

use lab_forms_texts::{Key, Ordinal};
use lab_store_write::values::{id_value, ordinal_value, text_value};
use lab_store_write::{RowId, Writable, first_id};
use sqlite::{Error, Row};

// The rows of the version of the form, in the laboratory.
fn form_rows<W: Writable>(
    tx: &mut W,
    lab: RowId,
    code: &str,
    version: Ordinal,
) -> Result<Vec<Row>, Error>
    ensures found { AnswersTrying (Only (asking_form lab.id code.now version)) W.lender W.state
        (λ rows. Finds (λ t. rows.items ≡ forms_shown lab.id code.now version t))
        tx.old tx.new result }
    ensures shown { HasCleanDisk (W.state tx.new) → IfOk result (λ rows. IsShown
        (asking_form lab.id code.now version) (W.state tx.old) (W.state tx.new) rows.items) }
{
    tx.query_all(
        "SELECT id FROM forms WHERE lab = ?1 AND code = ?2 AND version = ?3 ORDER BY id",
        &[id_value(lab), text_value(code), ordinal_value(version)],
    )
}

/// Returns the id of the version of the form, in the laboratory.
///
/// # Errors
/// The errors of `Writable`, or no such row exists.
pub(crate) fn form_id_at<W: Writable>(
    tx: &mut W,
    lab: RowId,
    code: &Key,
    version: Ordinal,
) -> Result<RowId, Error>
    ensures { AnswersTrying (Only (asking_form lab.id code.now version)) W.lender W.state
        (λ one. Finds (λ t. form_named t lab.id code.now version ≡ Some one.id))
        tx.old tx.new result }
{
    let rows = form_rows(tx, lab, code.as_str(), version)?;
    first_id(&rows)
}
