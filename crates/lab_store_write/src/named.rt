//! The persons whom codes name, by the keys of the table of persons.

ghost use Rattle.std.specs.Prelude.{◌≡◌, Some, option_map, slice_get, IfOk, IfErr, IfSome, IsSomeAnd};
ghost use Rattle.sqlite.specs.State.{HasCleanDisk};
ghost use Rattle.lab_store_tables.specs.Changes.{person_named, IsNamedIfAny};
ghost use Rattle.lab_store_write.specs.Calls.{AnswersTrying, Finds};
ghost use Rattle.lab_store_write.specs.Causes.{IsShown, IsUnread, IsUnnamed};
ghost use Rattle.lab_store_write.specs.Givers.{Knows};
ghost use Rattle.lab_store_write.specs.Ids.{row_id, id_read};
ghost use Rattle.lab_store_write.specs.Private.Shown.{persons_shown};
ghost use Rattle.lab_store_write.specs.Statements.{asking_person};
ghost use Rattle.lab_store_write.specs.Tried.{Only, TriesIfAny};

use crate::statements::RowId;
use crate::values::{id_value, text_value};
use crate::writable::Writable;
use lab_forms_texts::PersonCode;
use sqlite::{Error, Row};

/// Returns the id that a row shows first.
///
/// # Errors
/// The store failed, or memory ran out.
pub fn id_of(row: &Row) -> Result<RowId, Error>
    ensures value { IfOk result (λ one. one.id ≡ id_read row.now) }
    ensures fault { IfErr result (IsUnread row.now) }
{
    let id = row.get(0)?;
    Ok(RowId { id })
}

/// Returns the id that the first row shows. Fails if there is no row, because nobody is named then.
///
/// # Errors
/// The store failed, or memory ran out.
pub fn first_id(rows: &[Row]) -> Result<RowId, Error>
    ensures value { IfOk result (λ one. option_map id_read (slice_get rows.now 0) ≡ Some one.id) }
    ensures fault { IfErr result (IsUnnamed rows.now) }
{
    match rows.first() {
        Some(row) => Ok(id_of(row)?),
        None => Err(Error::QueryReturnedNoRows),
    }
}

// The rows of the person with the code, in the laboratory.
fn person_rows<W: Writable>(tx: &mut W, lab: RowId, code: &str) -> Result<Vec<Row>, Error>
    ensures found { AnswersTrying (Only (asking_person lab.id code.now)) W.lender W.state
        (λ rows. Finds (λ t. rows.items ≡ persons_shown lab.id code.now t)) tx.old tx.new result }
    ensures shown { HasCleanDisk (W.state tx.new) → IfOk result (λ rows.
        IsShown (asking_person lab.id code.now) (W.state tx.old) (W.state tx.new) rows.items) }
{
    tx.query_all(
        "SELECT id FROM persons WHERE lab = ?1 AND code = ?2 ORDER BY id",
        &[id_value(lab), text_value(code)],
    )
}

/// Returns the id of the person with the code, in the laboratory.
///
/// # Errors
/// The errors of `Writable`, or no such row exists.
pub fn person_id_at<W: Writable>(tx: &mut W, lab: RowId, code: &PersonCode) -> Result<RowId, Error>
    ensures { AnswersTrying (Only (asking_person lab.id code.now)) W.lender W.state
        (λ one. Finds (λ t. person_named t lab.id code.now ≡ Some one.id)) tx.old tx.new result }
{
    let rows = person_rows(tx, lab, code.as_str())?;
    first_id(&rows)
}

/// Who gives a command: a person whose code and id are known, and who isn't looked up again.
#[derive(Clone, Copy)]
pub struct Giver<'a> {
    /// The code.
    pub code: &'a PersonCode,
    /// The id of the person's row.
    pub id: RowId,
}

// The id of who gives the command, if that person is known and has the code.
fn given_id(giver: Option<Giver<'_>>, code: &PersonCode) -> Option<RowId>
    ensures { IfSome result (λ id.
        IsSomeAnd giver.entry (λ one. (one.code.now ≡ code.now) × (one.id ≡ id))) }
{
    match giver {
        Some(giver) if *giver.code == *code => Some(giver.id),
        _ => None,
    }
}

/// Returns the id of the person with the code, in the laboratory. Who gives the command isn't
/// looked up again, if that is known.
///
/// # Errors
/// The errors of `Writable`, or nobody has the code.
pub fn person_id_by<W: Writable>(
    tx: &mut W,
    lab: RowId,
    giver: Option<Giver<'_>>,
    code: &PersonCode,
) -> Result<RowId, Error>
    ensures { AnswersTrying (Only (asking_person lab.id code.now)) W.lender W.state
        (λ one. Finds (λ t. Knows lab.id giver.entry t →
        person_named t lab.id code.now ≡ Some one.id))
        tx.old tx.new result }
{
    match given_id(giver, code) {
        Some(id) => Ok(id),
        None => person_id_at(tx, lab, code),
    }
}

/// Returns the id of the person with the code, in the laboratory, if a code is given. Who gives the
/// command isn't looked up again, if that is known.
///
/// # Errors
/// The errors of `Writable`, or nobody has the code.
pub(crate) fn person_if_any<W: Writable>(
    tx: &mut W,
    lab: RowId,
    giver: Option<Giver<'_>>,
    code: &Option<PersonCode>,
) -> Result<Option<RowId>, Error>
    ensures { AnswersTrying (TriesIfAny lab.id code.now) W.lender W.state
        (λ one. Finds (λ t. Knows lab.id giver.entry t →
        IsNamedIfAny t lab.id code.now (option_map row_id one)))
        tx.old tx.new result }
{
    match code {
        Some(code) => {
            let person = person_id_by(tx, lab, giver, code)?;
            Ok(Some(person))
        }
        None => Ok(None),
    }
}

/// Returns who gives a command, by the code, if one is given: that person is looked up once.
///
/// # Errors
/// The errors of `Writable`, or nobody has the code.
pub fn giver_if_any<'a, W: Writable>(
    tx: &mut W,
    lab: RowId,
    code: &'a Option<PersonCode>,
) -> Result<Option<Giver<'a>>, Error>
    ensures { AnswersTrying (TriesIfAny lab.id code.now) W.lender W.state
        (λ giver. Finds (Knows lab.id giver)) tx.old tx.new result }
{
    match code {
        Some(code) => {
            let id = person_id_at(tx, lab, code)?;
            Ok(Some(Giver { code, id }))
        }
        None => Ok(None),
    }
}
