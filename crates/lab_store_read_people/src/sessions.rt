//! Sessions, by the digests of their tokens.

ghost use Rattle.std.specs.Prelude.{◌≡◌, option_map, slice_get, IfOk, IfErr};
ghost use Rattle.lab_people_access.specs.Sessions.{session_of};
ghost use Rattle.lab_store_tables.specs.Meaning.{sessions_of};
ghost use Rattle.lab_store_read.specs.Causes.{HasItsCause, HasFirst};
ghost use Rattle.lab_store_read.specs.Cells.{storage};
ghost use Rattle.lab_store_read.specs.Reads.{Reads};
ghost use Rattle.lab_store_read_people.specs.SessionsShown.{sessions_shown, HasSession};
ghost use Rattle.lab_store_read_people.specs.Private.SessionsShown.{session_read};

use crate::asking::rows_by_token;
use lab_people_access::Session;
use lab_seal_hashes::Digest;
use lab_store_read::cells::{digest_of, flag_of, moment_of, ordinal_of, text_of};
use lab_store_read::{ReadFault, Readable};
use sqlite::Row;
use std::alloc::Global;

// The row of the session whose token has the digest, in the laboratory with the id.
fn session_rows<D: Readable>(conn: &mut D, lab: i64, token: &[u8]) -> Result<Vec<Row>, ReadFault>
    ensures reads { Reads (λ t rows. rows.items ≡ sessions_shown t lab token.now)
        (D.state conn.old) (D.state conn.new) result }
    ensures cause { HasItsCause (λ t. Unit {0}) (D.state conn.old) (D.state conn.new) result }
{
    rows_by_token(
        conn,
        "SELECT sessions.number, persons.code, sessions.token, sessions.opened, sessions.last, sessions.closed, sessions.signed FROM sessions, persons WHERE sessions.lab = ?1 AND sessions.token = ?2 AND persons.id = sessions.person",
        lab,
        token,
    )
}

// The session that a row shows.
fn session_of_row(alloc: Global, row: &Row) -> Result<Session, ReadFault>
    ensures value { IfOk result (λ session. session ≡ session_read row.now) }
    ensures fault { IfErr result (λ fault. fault ≡ storage → ¬ HasSession row.now) }
{
    let number = ordinal_of(row, 0)?;
    let token = digest_of(row, 2)?;
    let opened = moment_of(row, 3)?;
    let last = moment_of(row, 4)?;
    let closed = flag_of(row, 5)?;
    let signed = flag_of(row, 6)?;
    let person = text_of(alloc, row, 1)?;
    Ok(Session {
        number,
        person,
        token,
        opened,
        last,
        closed,
        signed,
    })
}

// The session that the first row shows.
fn first_session(alloc: Global, rows: &[Row]) -> Result<Option<Session>, ReadFault>
    ensures value { IfOk result
        (λ session. session ≡ option_map session_read (slice_get rows.now 0)) }
    ensures fault { IfErr result (λ fault. fault ≡ storage → ¬ HasFirst HasSession rows.now) }
{
    match rows.first() {
        Some(row) => Ok(Some(session_of_row(alloc, row)?)),
        None => Ok(None),
    }
}

/// Returns the session whose token has the digest, open or closed, in the laboratory with the id.
///
/// # Errors
/// The store failed, a row isn't one that this program could have written, or memory ran out.
pub fn session_at<D: Readable>(
    alloc: Global,
    conn: &mut D,
    lab: i64,
    token: &Digest,
) -> Result<Option<Session>, ReadFault>
    ensures reads { Reads (λ t session. session ≡ session_of (sessions_of t lab) token.now)
        (D.state conn.old) (D.state conn.new) result }
    ensures cause { HasItsCause (λ t. HasFirst HasSession (sessions_shown t lab token.now))
        (D.state conn.old) (D.state conn.new) result }
{
    let bytes = token.bytes();
    let rows = session_rows(conn, lab, &bytes)?;
    first_session(alloc, &rows)
}
