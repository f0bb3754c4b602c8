//! A laboratory, whole.

ghost use Rattle.std.specs.Prelude.{◌≡◌, All, IfErr, IfOk};
ghost use Rattle.sqlite.specs.State.{HasCleanDisk};
ghost use Rattle.lab_store_tables.specs.Rows.{Tables};
ghost use Rattle.lab_move_tables.specs.Chained.{IsChained};
ghost use Rattle.lab_move_tables.specs.Reading.{ReadsOldWhere, ReadsWhere};
ghost use Rattle.lab_move_tables.specs.Standing.{StandsBy};
ghost use Rattle.lab_move_read_people.specs.Kept.{TriesBy};
ghost use Rattle.lab_move_read_people.specs.declared.faults.KeptFault.TheVariants.{NotKept, Storage};
ghost use Rattle.lab_move_read.specs.Readable.{HasHead, HasParts, HasPeople, HasWhole, HasWork};
ghost use Rattle.lab_move_read.specs.Laboratories.{head_of, IsLabOf, IsUnkept};
ghost use Rattle.lab_move_read.specs.Private.Laboratories.{people_of, work_of, are_kept_people, is_kept_work, is_kept_head, lab_by};

use crate::{forms_alone, forms_at, records_at};
use lab_forms_texts::{LabCode, Series};
use lab_move_read_people::{KeptFault, persons_at, sessions_at, trail_at};
use lab_move_tables::{ChainedLab, Older, lab_rows};
use lab_people_access::{Person, Session};
use lab_records_kept::{FormVersion, Lab, Record};
use lab_store_read::{ReadFault, Readable};
use lab_store_read_records::{LabHead, first_lab};
use std::alloc::Global;

/// The persons and the sessions of a laboratory.
#[derive(Drop)]
struct People {
    /// Persons.
    persons: Series<Person>,
    /// Sessions.
    sessions: Series<Session>,
}

/// The forms and the records of a laboratory.
#[derive(Drop)]
struct Work {
    /// Versions of forms.
    forms: Series<FormVersion>,
    /// Records.
    records: Series<Record>,
}

// The laboratory's own row, where there is one of the code.
fn head_at<D: Readable>(
    alloc: Global,
    conn: &mut D,
    code: &LabCode,
) -> Result<Option<LabHead>, ReadFault>
    ensures { ReadsOldWhere (HasHead code.now) (λ t head. head ≡ head_of t code.now)
        (D.state conn.old) (D.state conn.new) result }
{
    let rows = lab_rows(conn, code.as_str())?;
    first_lab(alloc, &rows)
}

// Its persons and sessions.
fn people_at<D: Readable>(
    alloc: Global,
    conn: &mut D,
    older: Older,
    head: &LabHead,
) -> Result<People, KeptFault>
    ensures { TriesBy older (HasPeople older head.now.id) (λ t. are_kept_people t head.now)
        (λ t people. people ≡ people_of t head.now)
        (D.state conn.old) (D.state conn.new) result }
{
    let persons = persons_at(alloc, conn, older, head.id)?;
    let sessions = sessions_at(alloc, conn, head.id, head.sessions)?;
    Ok(People { persons, sessions })
}

// Its forms and records.
fn work_at<D: Readable>(
    alloc: Global,
    conn: &mut D,
    older: Older,
    head: &LabHead,
) -> Result<Work, KeptFault>
    ensures tries { TriesBy older (HasWork older head.now.id) (λ t. is_kept_work t head.now)
        (λ t work. work ≡ work_of t head.now)
        (D.state conn.old) (D.state conn.new) result }
    ensures chained { IfOk result (λ work. All (IsChained head.now.code) work.records) }
{
    let forms = forms_at(alloc, conn, older, head.id)?;
    let records = records_at(
        alloc,
        conn,
        older,
        head.id,
        &head.code,
        forms.as_slice(),
        head.records,
    )?;
    let alone = forms_alone(alloc, forms.into_vec())?;
    Ok(Work {
        forms: alone,
        records,
    })
}

// The laboratory of the row.
fn lab_whole<D: Readable>(
    alloc: Global,
    conn: &mut D,
    older: Older,
    head: LabHead,
) -> Result<ChainedLab, KeptFault>
    ensures { TriesBy older (λ db t. HasParts older db t head) (λ t. is_kept_head t head)
        (λ t lab. lab ≡ lab_by t head)
        (D.state conn.old) (D.state conn.new) result }
{
    let people = people_at(alloc, conn, older, &head)?;
    let work = work_at(alloc, conn, older, &head)?;
    let trail = trail_at(alloc, conn, head.id, head.trail)?;
    Ok(ChainedLab::new(Lab {
        code: head.code,
        name: head.name,
        last: head.last,
        strays: head.strays,
        persons: people.persons,
        sessions: people.sessions,
        forms: work.forms,
        records: work.records,
        trail,
    }))
}

/// Returns the laboratory of the code, whole, as one of today's, with what the older schema didn't
/// know filled in. Returns `None` if the file has none of the code. Its rows are well kept: all that
/// makes them so was tried. However the call ends, the rows are as they were, and a crash leaves no
/// more than before.
///
/// # Errors
/// Its rows aren't well kept, the store failed, a row isn't one that a program could have written,
/// or memory ran out.
pub fn whole<D: Readable>(
    alloc: Global,
    conn: &mut D,
    older: Older,
    code: &LabCode,
) -> Result<Option<ChainedLab>, KeptFault>
    ensures reads { ReadsWhere (StandsBy older) (HasWhole older code.now)
        (λ fault. fault ≡ Storage) (λ t found. IsLabOf t code.now found)
        (D.state conn.old) (D.state conn.new) result }
    ensures not_kept { (t : Tables) → StandsBy older (D.state conn.old).now t →
        HasCleanDisk (D.state conn.new) →
        IfErr result (λ fault. fault ≡ NotKept → IsUnkept t code.now) }
{
    let head = head_at(alloc, conn, code)?;
    match head {
        Some(head) => Ok(Some(lab_whole(alloc, conn, older, head)?)),
        None => Ok(None),
    }
}
