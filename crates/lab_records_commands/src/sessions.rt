//! The results of opening and closing a session.
ghost use Rattle.std.specs.Prelude.{◌≡◌, Ok, is_ok, IfOk, IsTrue, OnErr};
ghost use Rattle.lab_people_access.specs.Openings.{opening};
ghost use Rattle.lab_records_machine.specs.Done.{opened_done, closed_done};

use crate::counts::open_counted;
use lab_forms_texts::{OutOfMemory, PersonCode, Tick};
use lab_people_access::{Opened, PeopleFault, Person, Session};
use lab_records_kept::{Change, Deed, Occasion};
use lab_records_machine::{Done, Reply, pair, single};
use lab_records_rules::{Refusal, Typed};
use std::alloc::Global;

/// Returns the result of opening a session with a code, with which the person was looked up, and a
/// password. Fails only if memory runs out, and only if the result is an open session.
///
/// # Errors
/// Memory ran out.
pub fn opening_done(
    alloc: Global,
    code: PersonCode,
    person: Option<Person>,
    password: &Typed,
    tick: &Tick,
    sessions: u64,
    repeated: &Option<Session>,
) -> Result<Done, OutOfMemory>
    ensures done { IfOk result (λ done. done
        ≡ opened_done (opening code person password.now tick.now sessions repeated.now)) }
    ensures memory { OnErr result
        (IsTrue (is_ok (opening code person password.now tick.now sessions repeated.now))) }
{
    match open_counted(
        code,
        person,
        password.as_str(),
        tick,
        sessions,
        repeated.as_ref(),
    ) {
        Ok(opened) => opened_done(alloc, opened),
        Err(fault) => match fault {
            PeopleFault::Failed(failure) => Ok(Done::Failed(Occasion::Opening, failure)),
            PeopleFault::Refused(refusal) => Ok(Done::Refused(Refusal::People(refusal))),
        },
    }
}

// The result after a session was opened.
fn opened_done(alloc: Global, opened: Opened) -> Result<Done, OutOfMemory>
    ensures { IfOk result (λ done. done ≡ opened_done (Ok opened)) }
{
    let Opened {
        person,
        session,
        token,
        due,
    } = opened;
    let number = session.number;
    let changes = pair(
        alloc,
        Change::PersonSet(person),
        Change::SessionAdded(session),
    )?;
    Ok(Done::Made(
        Reply::Opened {
            session: number,
            token,
            due,
        },
        Deed::Open { session: number },
        changes,
    ))
}

/// Returns the result when a person closes the session. The closed session is always a change.
/// Fails only if memory runs out.
///
/// # Errors
/// Memory ran out.
pub fn closed_done(alloc: Global, session: Session) -> Result<Done, OutOfMemory>
    ensures { IfOk result (λ done. done ≡ closed_done session) }
{
    let number = session.number;
    let mut closed = session;
    closed.close();
    let changes = single(alloc, Change::SessionSet(closed))?;
    Ok(Done::Made(
        Reply::Closed { session: number },
        Deed::Close { session: number },
        changes,
    ))
}
