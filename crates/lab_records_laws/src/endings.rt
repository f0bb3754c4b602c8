//! How a command ends on a part of a laboratory: how its request is noted, what a failed password
//! changes, and what a full trail refuses.
ghost use Rattle.std.specs.Prelude.{◌≡◌, ◌++◌, ◌∷◌, [], Some, false, nat_le, IfOk, OnErr};
ghost use Rattle.std.specs.List.{list_any};
ghost use Rattle.lab_records_kept.specs.Limits.{count_limit};
ghost use Rattle.lab_records_kept.specs.Trails.{trail_row_of};
ghost use Rattle.lab_records_laws.specs.Deciding.{IsWritten, failure_changes, outcome, made_end, end_by, is_session_set, touch_changes, is_noted, noted_changes, noted_end};

use crate::outcome::Outcome;
use crate::telling::{deed_changes, failure_outcome, refusal_outcome};
use crate::trail_rows::next_number;
use lab_forms_texts::{Moment, Ordinal, OutOfMemory, PersonCode, Series};
use lab_people_access::{Failure, PeopleRefusal, Session};
use lab_records_kept::{Change, Deed, Occasion};
use lab_records_machine::{Done, Reply, joined_list, pair, single};
use lab_records_rules::Refusal;
use std::alloc::Global;

/// Ends a request in the session at the moment: the request is noted before its other changes. If
/// it has no other changes, and the laboratory and the session already have the moment, there is no
/// change. Fails only if memory runs out, and only if there is a change.
///
/// # Errors
/// Memory ran out.
pub fn noted_end(
    alloc: Global,
    last: Moment,
    moment: Moment,
    session: Session,
    ended: Outcome,
) -> Result<Outcome, OutOfMemory>
    ensures noted { IfOk result (λ told. told ≡ noted_end last moment session ended) }
    ensures memory { OnErr result (is_noted last moment session ended.changes ≡ false) }
{
    let Outcome { reply, changes } = ended;
    match noted_changes(alloc, last, moment, session, changes) {
        Ok(changes) => Ok(Outcome { reply, changes }),
        Err(fault) => {
            drop(reply);
            Err(fault)
        }
    }
}

// The note of a request in the session, and then its other changes; no change if it is already
// noted. Fails only if memory runs out, and only if it isn't already noted.
fn noted_changes(
    alloc: Global,
    last: Moment,
    moment: Moment,
    session: Session,
    own: Series<Change>,
) -> Result<Series<Change>, OutOfMemory>
    ensures noted { IfOk result (λ changes. changes ≡ noted_changes last moment session own) }
    ensures memory { OnErr result (is_noted last moment session own ≡ false) }
{
    if is_noted(last, moment, &session, &own) {
        drop(session);
        drop(own);
        return Ok(Series::new(alloc));
    }
    match touch_changes(alloc, moment, session, &own) {
        Ok(before) => joined_list(before, own),
        Err(fault) => {
            drop(own);
            Err(fault)
        }
    }
}

// Whether a request in the session is already noted: it has no other changes, and the laboratory
// and the session have the moment.
fn is_noted(last: Moment, moment: Moment, session: &Session, own: &Series<Change>) -> bool
    ensures { result ≡ is_noted last moment session.now own.now }
{
    own.as_slice().is_empty() && last == moment && session.last == moment
}

// Whether one of the changes sets a session.
fn sets_session(changes: &[Change]) -> bool
    ensures { result ≡ list_any is_session_set changes.now }
{
    changes
        .iter()
        .any(|change| matches!(change, Change::SessionSet(_)))
}

// The note of a request in the session at the moment: always the laboratory's moment, and the
// session if the other changes don't set it. Fails only if memory runs out.
fn touch_changes(
    alloc: Global,
    moment: Moment,
    session: Session,
    own: &Series<Change>,
) -> Result<Series<Change>, OutOfMemory>
    ensures { IfOk result (λ changes. changes ≡ touch_changes moment session own.now) }
{
    if sets_session(own.as_slice()) {
        drop(session);
        return single(alloc, Change::Last(moment));
    }
    let mut touched = session;
    touched.touch(moment);
    pair(alloc, Change::Last(moment), Change::SessionSet(touched))
}

/// Ends an opening with a failed password: its moment is noted, always as a change. Fails only if
/// memory runs out.
///
/// # Errors
/// Memory ran out.
pub fn failed_opening(
    alloc: Global,
    rows: u64,
    strays: u64,
    moment: Moment,
    occasion: Occasion,
    failure: Failure,
) -> Result<Outcome, OutOfMemory>
    ensures { IfOk result (λ told. told
        ≡ outcome (Reply.Refused (Refusal.People PeopleRefusal.Credentials))
        (Change.Last moment ∷ failure_changes rows strays moment occasion failure)) }
{
    match single(alloc, Change::Last(moment)) {
        Ok(before) => failure_outcome(alloc, before, rows, strays, moment, occasion, failure),
        Err(fault) => {
            drop(failure);
            Err(fault)
        }
    }
}

/// Ends an opening that is accepted: a full trail refuses it, else its moment is noted, and the
/// deed is logged in the trail. Fails only if memory runs out, and only if the trail has room.
///
/// # Errors
/// Memory ran out.
pub fn made_opening(
    alloc: Global,
    rows: u64,
    moment: Moment,
    code: &PersonCode,
    reply: Reply,
    deed: Deed,
    own: Series<Change>,
) -> Result<Outcome, OutOfMemory>
    ensures made { IfOk result (λ outcome. outcome
        ≡ made_end rows moment code.now reply deed (Change.Last moment ∷ own)) }
    ensures memory { OnErr result (nat_le count_limit rows ≡ false) }
{
    let Some(number) = next_number(rows) else {
        drop(reply);
        drop(deed);
        drop(own);
        let refusal = Refusal::People(PeopleRefusal::LabFull);
        return Ok(refusal_outcome(Series::new(alloc), refusal));
    };
    match with_moment(alloc, moment, own) {
        Ok(own) => told_end(alloc, number, moment, code, reply, deed, own),
        Err(fault) => {
            drop(reply);
            drop(deed);
            Err(fault)
        }
    }
}

// The moment of the last activity, always as a change, and other changes after it. Fails only if
// memory runs out.
fn with_moment(
    alloc: Global,
    moment: Moment,
    own: Series<Change>,
) -> Result<Series<Change>, OutOfMemory>
    ensures { IfOk result (λ changes. changes ≡ Change.Last moment ∷ own) }
{
    match single(alloc, Change::Last(moment)) {
        Ok(first) => joined_list(first, own),
        Err(fault) => {
            drop(own);
            Err(fault)
        }
    }
}

/// Ends a command in a session, without the note of its request. Fails only if memory runs out, and
/// only if the command writes something.
///
/// # Errors
/// Memory ran out.
pub fn end(
    alloc: Global,
    rows: u64,
    strays: u64,
    moment: Moment,
    person: &PersonCode,
    done: Done,
) -> Result<Outcome, OutOfMemory>
    ensures ended { IfOk result (λ outcome. outcome ≡ end_by rows strays moment person.now done) }
    ensures memory { OnErr result (IsWritten rows done) }
{
    match done {
        Done::Refused(refusal) => Ok(refusal_outcome(Series::new(alloc), refusal)),
        Done::Failed(occasion, failure) => {
            let own = Series::new(alloc);
            failure_outcome(alloc, own, rows, strays, moment, occasion, failure)
        }
        Done::Read(reply) => Ok(Outcome {
            reply,
            changes: Series::new(alloc),
        }),
        Done::Made(reply, deed, own) => made_end(alloc, rows, moment, person, reply, deed, own),
    }
}

// Ends a command that made something: a full trail refuses it last, else the deed is logged in the
// trail. Fails only if memory runs out, and only if the trail has room.
fn made_end(
    alloc: Global,
    rows: u64,
    moment: Moment,
    person: &PersonCode,
    reply: Reply,
    deed: Deed,
    own: Series<Change>,
) -> Result<Outcome, OutOfMemory>
    ensures made { IfOk result (λ outcome. outcome
        ≡ made_end rows moment person.now reply deed own) }
    ensures memory { OnErr result (nat_le count_limit rows ≡ false) }
{
    let Some(number) = next_number(rows) else {
        drop(reply);
        drop(deed);
        drop(own);
        let full = Refusal::People(PeopleRefusal::LabFull);
        return Ok(refusal_outcome(Series::new(alloc), full));
    };
    told_end(alloc, number, moment, person, reply, deed, own)
}

// Logs in the trail what was made, with the next number of the trail. The row is always made. Fails
// only if memory runs out.
fn told_end(
    alloc: Global,
    number: Ordinal,
    moment: Moment,
    person: &PersonCode,
    reply: Reply,
    deed: Deed,
    own: Series<Change>,
) -> Result<Outcome, OutOfMemory>
    ensures { IfOk result (λ made. made ≡ outcome reply
        (own ++ Change.TrailAdded (trail_row_of number moment (Some person.now) deed) ∷ [])) }
{
    let changes = deed_changes(alloc, own, number, moment, person, &deed);
    drop(deed);
    match changes {
        Ok(changes) => Ok(Outcome { reply, changes }),
        Err(fault) => {
            drop(reply);
            Err(fault)
        }
    }
}
