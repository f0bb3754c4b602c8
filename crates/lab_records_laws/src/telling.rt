//! Replies and rows of the trail: for a refusal, for a failed password, and for what was made.
ghost use Rattle.std.specs.Prelude.{◌≡◌, ◌++◌, ◌∷◌, [], Some, IfOk, OnErr};
ghost use Rattle.lab_records_kept.specs.Trails.{trail_row_of};
ghost use Rattle.lab_records_laws.specs.Deciding.{IsFailureWritten, failure_changes, outcome};

use crate::outcome::Outcome;
use crate::trail_rows::{fail, trail_row_of};
use lab_forms_texts::{Moment, Ordinal, OutOfMemory, PersonCode, Series};
use lab_people_access::{Failure, PeopleRefusal};
use lab_records_kept::{Change, Deed, Occasion};
use lab_records_machine::Reply;
use lab_records_rules::Refusal;
use std::alloc::Global;

/// Returns the outcome of a command that is refused, with the changes that are made nevertheless.
pub fn refusal_outcome(changes: Series<Change>, refusal: Refusal) -> Outcome
    ensures { result ≡ outcome (Reply.Refused refusal) changes }
{
    Outcome {
        reply: Reply::Refused(refusal),
        changes,
    }
}

/// Returns the outcome of a failed password for a command. Fails only if memory runs out, and only
/// if the failure changes something.
///
/// # Errors
/// Memory ran out.
pub fn failure_outcome(
    alloc: Global,
    before: Series<Change>,
    rows: u64,
    strays: u64,
    moment: Moment,
    occasion: Occasion,
    failure: Failure,
) -> Result<Outcome, OutOfMemory>
    ensures failed { IfOk result (λ told. told
        ≡ outcome (Reply.Refused (Refusal.People PeopleRefusal.Credentials))
        (before ++ failure_changes rows strays moment occasion failure)) }
    ensures memory { OnErr result (IsFailureWritten rows failure) }
{
    let mut changes = before;
    fail(alloc, &mut changes, rows, strays, moment, occasion, failure)?;
    Ok(refusal_outcome(changes, Refusal::People(PeopleRefusal::Credentials)))
}

/// Returns changes, and after them the row of the trail that logs the deed. The row is always made.
/// Fails only if memory runs out.
///
/// # Errors
/// Memory ran out.
pub fn deed_changes(
    alloc: Global,
    own: Series<Change>,
    number: Ordinal,
    moment: Moment,
    person: &PersonCode,
    deed: &Deed,
) -> Result<Series<Change>, OutOfMemory>
    ensures { IfOk result (λ changes. changes
        ≡ own ++ Change.TrailAdded (trail_row_of number moment (Some person.now) deed.now) ∷ []) }
{
    let row = trail_row_of(alloc, number, moment, person, deed)?;
    let mut changes = own;
    changes.push(Change::TrailAdded(row))?;
    Ok(changes)
}
