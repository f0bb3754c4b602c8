//! A laboratory whose row was found and whose persons were counted, kept from one call to the next.

ghost use Rattle.std.specs.Prelude.{◌≡◌, Some, IfSome, IsTrue, OnOk, length};
ghost use Rattle.sqlite.specs.State.{HasCleanDisk};
ghost use Rattle.lab_store_tables.specs.Meaning.{persons_of};
ghost use Rattle.lab_store_read.specs.Causes.{HasFirst, HasItsCause};
ghost use Rattle.lab_store_read.specs.Reads.{Reads, MayRead};
ghost use Rattle.lab_store_read_records.specs.Readable.{HasLab};
ghost use Rattle.lab_store_read_records.specs.Shown.{labs_shown};
ghost use Rattle.lab_store_load.specs.Counts.{IsCounted, IsOpenIn, lab_id_of};

use lab_forms_texts::LabCode;
use lab_store_read::{ReadFault, Readable};
use lab_store_read_people::person_count;
use lab_store_read_records::lab_at;
use std::alloc::Global;

/// A laboratory whose row was found and whose persons were counted.
#[derive(Debug, Drop)]
pub struct Counted {
    /// Its code.
    pub code: LabCode,
    /// The id of its row.
    pub lab: i64,
    /// How many persons it had.
    pub persons: u64,
}

// How many persons the laboratory with the id has: the number that was counted before, if it was
// counted for this laboratory.
fn persons_after<D: Readable>(conn: &mut D, lab: i64, counted: &Counted) -> Result<u64, ReadFault>
    ensures reads { MayRead (λ t persons. IsCounted t counted.now →
        persons ≡ length (persons_of t lab)) (D.state conn.old) (D.state conn.new) result }
    ensures cause { HasItsCause (λ t. Unit {0}) (D.state conn.old) (D.state conn.new) result }
{
    if counted.lab == lab {
        return Ok(counted.persons);
    }
    person_count(conn, lab)
}

/// Returns how many persons the laboratory with the id has. Counts them unless they were counted
/// before.
///
/// # Errors
/// The store failed, a row isn't one that this program could have written, or memory ran out.
pub fn persons_counted<D: Readable>(
    conn: &mut D,
    lab: i64,
    counted: &Option<Counted>,
) -> Result<u64, ReadFault>
    ensures reads { MayRead (λ t persons. IfSome counted.now (IsCounted t) →
        persons ≡ length (persons_of t lab)) (D.state conn.old) (D.state conn.new) result }
    ensures cause { HasItsCause (λ t. Unit {0}) (D.state conn.old) (D.state conn.new) result }
{
    match counted {
        Some(counted) => persons_after(conn, lab, counted),
        None => person_count(conn, lab),
    }
}

// The id of the row of the laboratory with the code, if there is one.
fn lab_id<D: Readable>(
    alloc: Global,
    conn: &mut D,
    code: &LabCode,
) -> Result<Option<i64>, ReadFault>
    ensures reads { Reads (λ t id. id ≡ lab_id_of t code.now)
        (D.state conn.old) (D.state conn.new) result }
    ensures cause { HasItsCause (λ t. HasFirst HasLab (labs_shown t code.now))
        (D.state conn.old) (D.state conn.new) result }
{
    let found = lab_at(alloc, conn, code)?;
    match found {
        Some(head) => Ok(Some(head.id)),
        None => Ok(None),
    }
}

// The id of the row of the laboratory with the code, if there is one. It isn't looked up if this
// laboratory was counted before.
fn lab_id_after<D: Readable>(
    alloc: Global,
    conn: &mut D,
    counted: &Counted,
    code: &LabCode,
) -> Result<Option<i64>, ReadFault>
    ensures reads { MayRead (λ t id. IsCounted t counted.now → id ≡ lab_id_of t code.now)
        (D.state conn.old) (D.state conn.new) result }
    ensures cause { HasItsCause (λ t. HasFirst HasLab (labs_shown t code.now))
        (D.state conn.old) (D.state conn.new) result }
{
    if counted.code.as_str() == code.as_str() {
        return Ok(Some(counted.lab));
    }
    lab_id(alloc, conn, code)
}

/// Returns the id of the row of the laboratory with the code, if there is one. Looks it up unless
/// this laboratory was counted before.
///
/// # Errors
/// The store failed, a row isn't one that this program could have written, or memory ran out.
pub fn lab_id_at<D: Readable>(
    alloc: Global,
    conn: &mut D,
    counted: &Option<Counted>,
    code: &LabCode,
) -> Result<Option<i64>, ReadFault>
    ensures reads { MayRead (λ t id. IfSome counted.now (IsCounted t) → id ≡ lab_id_of t code.now)
        (D.state conn.old) (D.state conn.new) result }
    ensures cause { HasItsCause (λ t. HasFirst HasLab (labs_shown t code.now))
        (D.state conn.old) (D.state conn.new) result }
    // If the connection is open whenever something was counted: a connection that answers is open,
    // even if nothing is looked up.
    ensures opened { IsOpenIn (D.state conn.old) counted.now → HasCleanDisk (D.state conn.new) →
        OnOk result (IsTrue (D.state conn.old).is_open) }
{
    match counted {
        Some(counted) => lab_id_after(alloc, conn, counted, code),
        None => lab_id(alloc, conn, code),
    }
}
