//! The caller, found by token, and the person whom a command names, found by code.

ghost use Rattle.std.specs.Prelude.{◌≡◌, option_and_then};
ghost use Rattle.lab_records_kept.specs.Lookups.{session_at, person_at, caller_of};
ghost use Rattle.lab_store_read_records.specs.Laboratories.{lab_by};
ghost use Rattle.lab_store_load.specs.Private.People.{callers_by};
ghost use Rattle.lab_store_load.specs.People.{people_by};
ghost use Rattle.lab_store_load.specs.Readable.{HasSessionOf, HasPersonOf, HasCallerOf, HasCallers, HasPeople};
ghost use Rattle.lab_store_read.specs.Causes.{HasItsCause};
ghost use Rattle.lab_store_read.specs.Reads.{MayRead};

use lab_forms_texts::PersonCode;
use lab_people_access::{Person, Session};
use lab_records_kept::Need;
use lab_seal_hashes::Digest;
use lab_store_read::{ReadFault, Readable};
use lab_store_read_people::{person_at, session_at};
use lab_store_read_records::LabHead;
use std::alloc::Global;

/// The session of the command's token, and its person.
#[derive(Drop)]
struct Callers {
    /// The session, if it was found.
    session: Option<Session>,
    /// The person whose session it is.
    caller: Option<Person>,
}

/// The session that a command asks for, its person, and the person whom the command names.
#[derive(Drop)]
pub struct People {
    /// The session, if it was found.
    pub session: Option<Session>,
    /// The person whose session it is.
    pub caller: Option<Person>,
    /// The person with the code, if somebody has or had it.
    pub person: Option<Person>,
}

// The session whose token has the digest, if a digest is given.
fn session_if<D: Readable>(
    alloc: Global,
    conn: &mut D,
    lab: &LabHead,
    token: &Option<Digest>,
) -> Result<Option<Session>, ReadFault>
    ensures reads { MayRead (λ t session. session
        ≡ option_and_then (session_at (lab_by t lab.now)) token.now)
        (D.state conn.old) (D.state conn.new) result }
    ensures cause { HasItsCause (λ t. HasSessionOf t lab.now.id token.now)
        (D.state conn.old) (D.state conn.new) result }
{
    match token {
        Some(token) => session_at(alloc, conn, lab.id, token),
        None => Ok(None),
    }
}

// The person whose session it is.
fn caller_if<D: Readable>(
    alloc: Global,
    conn: &mut D,
    lab: &LabHead,
    session: &Option<Session>,
) -> Result<Option<Person>, ReadFault>
    ensures reads { MayRead (λ t caller. caller ≡ caller_of (lab_by t lab.now) session.now)
        (D.state conn.old) (D.state conn.new) result }
    ensures cause { HasItsCause (λ t. HasCallerOf t lab.now.id session.now)
        (D.state conn.old) (D.state conn.new) result }
{
    match session {
        Some(session) => person_at(alloc, conn, lab.id, &session.person),
        None => Ok(None),
    }
}

// The session of the command's token, and its person.
fn callers_at<D: Readable>(
    alloc: Global,
    conn: &mut D,
    lab: &LabHead,
    token: &Option<Digest>,
) -> Result<Callers, ReadFault>
    ensures reads { MayRead (λ t callers. callers ≡ callers_by (lab_by t lab.now) token.now)
        (D.state conn.old) (D.state conn.new) result }
    ensures cause { HasItsCause (λ t. HasCallers t lab.now token.now)
        (D.state conn.old) (D.state conn.new) result }
{
    let session = session_if(alloc, conn, lab, token)?;
    let caller = caller_if(alloc, conn, lab, &session)?;
    Ok(Callers { session, caller })
}

// The person with the code, if a code is given.
fn person_if<D: Readable>(
    alloc: Global,
    conn: &mut D,
    lab: &LabHead,
    code: &Option<PersonCode>,
) -> Result<Option<Person>, ReadFault>
    ensures reads { MayRead (λ t person. person
        ≡ option_and_then (person_at (lab_by t lab.now)) code.now)
        (D.state conn.old) (D.state conn.new) result }
    ensures cause { HasItsCause (λ t. HasPersonOf t lab.now.id code.now)
        (D.state conn.old) (D.state conn.new) result }
{
    match code {
        Some(code) => person_at(alloc, conn, lab.id, code),
        None => Ok(None),
    }
}

/// Returns those that exist of the session of the command's token, its person, and the person whom
/// the command names.
///
/// # Errors
/// The store failed, a row isn't one that this program could have written, or memory ran out.
pub fn people_at<D: Readable>(
    alloc: Global,
    conn: &mut D,
    lab: &LabHead,
    need: &Need,
) -> Result<People, ReadFault>
    ensures reads { MayRead (λ t people. people ≡ people_by (lab_by t lab.now) need.now)
        (D.state conn.old) (D.state conn.new) result }
    ensures cause { HasItsCause (λ t. HasPeople t lab.now need.now)
        (D.state conn.old) (D.state conn.new) result }
{
    let callers = callers_at(alloc, conn, lab, &need.token)?;
    let person = person_if(alloc, conn, lab, &need.person)?;
    Ok(People {
        session: callers.session,
        caller: callers.caller,
        person,
    })
}
