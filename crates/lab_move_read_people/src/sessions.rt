//! The sessions of a laboratory.

ghost use Rattle.std.specs.Prelude.{◌≡◌, ◌&&◌, map, All, IfErr, IfOk};
ghost use Rattle.lab_store_tables.specs.Meaning.{sessions_of};
ghost use Rattle.lab_store_read_people.specs.Private.SessionsShown.{session_read};
ghost use Rattle.lab_move_tables.specs.KeptLabs.{are_kept_sessions};
ghost use Rattle.lab_move_read_people.specs.Private.Kept.{IsTried};
ghost use Rattle.lab_move_read_people.specs.Kept.{TriesOld, are_counted};
ghost use Rattle.lab_move_read_people.specs.Readable.{AreSessions, HasOldSession, HasSessions};
ghost use Rattle.lab_move_read_people.specs.declared.faults.KeptFault.TheVariants.{Storage};
ghost use Rattle.lab_move_tables.specs.Checks.{are_owned};
ghost use Rattle.lab_store_read.specs.Cells.{storage};

use crate::KeptFault;
use crate::cells::{are_counted, flag_of};
use lab_forms_texts::Series;
use lab_move_tables::{are_owned, session_rows};
use lab_people_access::Session;
use lab_store_read::cells::{digest_of, moment_of, ordinal_of, text_of};
use lab_store_read::{ReadFault, Readable};
use sqlite::Row;
use std::alloc::Global;

// The session that a row shows.
fn session_of_row(alloc: Global, row: &Row) -> Result<Session, ReadFault>
    ensures value { IfOk result (λ session. session ≡ session_read row.now) }
    ensures fault { IfErr result (λ fault. fault ≡ storage → ¬ HasOldSession row.now) }
{
    let number = ordinal_of(row, 0)?;
    let token = digest_of(row, 2)?;
    let opened = moment_of(row, 3)?;
    let last = moment_of(row, 4)?;
    let closed = flag_of(row, 5)?;
    let signed = flag_of(row, 6)?;
    let person = text_of(alloc, row, 1)?;
    Ok(Session {
        number,
        person,
        token,
        opened,
        last,
        closed,
        signed,
    })
}

// The sessions that rows show.
fn sessions_of_rows(alloc: Global, rows: &[Row]) -> Result<Vec<Session>, ReadFault>
    ensures value { IfOk result (λ made. made.items ≡ map session_read rows.now) }
    ensures fault { IfErr result (λ fault. fault ≡ storage → ¬ All HasOldSession rows.now) }
{
    let mut made = Vec::new(alloc);
    for row in rows {
        made.push(session_of_row(alloc, row)?)?;
    }
    Ok(made)
}

// The sessions that rows show. The rows have to be so many, numbered, and of persons of the
// laboratory.
#[tactic(auto, using(crate::proofs::Found::told_back))]
fn sessions_tried(
    alloc: Global,
    rows: &[Row],
    lab: i64,
    count: u64,
) -> Result<Series<Session>, KeptFault>
    ensures tried { IsTried (are_counted 0 count rows.now && are_owned 7 lab rows.now)
        (λ made. made ≡ map session_read rows.now) result }
    ensures fault { IfErr result (λ fault. fault ≡ Storage → ¬ AreSessions rows.now) }
{
    if !are_counted(rows, 0, count)? {
        return Err(KeptFault::NotKept);
    }
    if !are_owned(rows, 7, lab)? {
        return Err(KeptFault::NotKept);
    }
    Ok(Series::from_vec(sessions_of_rows(alloc, rows)?))
}

/// Returns the sessions of the laboratory with the id, in the order of their numbers. They have to
/// be of that number.
///
/// # Errors
/// They aren't well kept, the store failed, a row isn't one that a program could have written, or
/// memory ran out.
pub fn sessions_at<D: Readable>(
    alloc: Global,
    conn: &mut D,
    lab: i64,
    count: u64,
) -> Result<Series<Session>, KeptFault>
    ensures { TriesOld (HasSessions lab) (λ t. are_kept_sessions t lab count)
        (λ t made. made ≡ sessions_of t lab)
        (D.state conn.old) (D.state conn.new) result }
{
    let rows = session_rows(conn, lab)?;
    sessions_tried(alloc, &rows, lab, count)
}
