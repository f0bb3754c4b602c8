//! The rows that are added to a trail of a given length, and what a failed password changes.
ghost use Rattle.std.specs.Prelude.{◌≡◌, ◌+◌, ◌++◌, ◌∷◌, Some, true, false, nat_le, IfOk, OnOk, OnErr, MatchOption};
ghost use Rattle.lab_records_kept.specs.Limits.{count_limit};
ghost use Rattle.lab_records_kept.specs.Trails.{trail_row_of};
ghost use Rattle.lab_records_machine.specs.Cases.{more_strays};
ghost use Rattle.lab_records_laws.specs.Deciding.{IsFailureWritten, trail_row_if_room, trail_rows_if_room, failure_changes};

use crate::subjects::subject_of;
use lab_forms_texts::{Moment, Ordinal, OutOfMemory, PersonCode, Series};
use lab_people_access::{Closing, Failure, Person};
use lab_records_kept::{COUNT_LIMIT, Change, Deed, Occasion, STRAYS_LIMIT, TrailRow};
use std::alloc::Global;

/// Returns the number of the next row, if the trail has room for it.
pub fn next_number(rows: u64) -> Option<Ordinal>
    ensures { MatchOption result (nat_le count_limit rows ≡ true)
        (λ number. (nat_le count_limit rows ≡ false) × (number ≡ rows + 1)) }
{
    if rows >= COUNT_LIMIT {
        return None;
    }
    Ordinal::after(rows as u32)
}

/// Makes the row with the number that logs the deed. The code is always copied. Fails only if
/// memory runs out.
///
/// # Errors
/// Memory ran out.
pub fn trail_row_of(
    alloc: Global,
    number: Ordinal,
    moment: Moment,
    person: &PersonCode,
    deed: &Deed,
) -> Result<TrailRow, OutOfMemory>
    ensures { IfOk result (λ row. row ≡ trail_row_of number moment (Some person.now) deed.now) }
{
    let person = person.copy()?;
    let subject = subject_of(alloc, deed)?;
    Ok(TrailRow {
        number,
        moment,
        person: Some(person),
        action: deed.action(),
        subject,
    })
}

// The row that logs the deed, if the trail has room for it. Fails only if memory runs out, and only
// if there is room.
fn add_row_if_room(
    alloc: Global,
    changes: &mut Series<Change>,
    rows: u64,
    moment: Moment,
    person: &PersonCode,
    deed: &Deed,
) -> Result<(), OutOfMemory>
    ensures added { OnOk result
        (changes.new ≡ changes.old ++ trail_row_if_room rows moment person.now deed.now) }
    ensures memory { OnErr result (nat_le count_limit rows ≡ false) }
{
    let Some(number) = next_number(rows) else {
        return Ok(());
    };
    let row = trail_row_of(alloc, number, moment, person, deed)?;
    changes.push(Change::TrailAdded(row))?;
    Ok(())
}

// The rows that log two deeds, if the trail has room for them. Fails only if memory runs out, and
// only if there is room for one.
fn add_rows_if_room(
    alloc: Global,
    changes: &mut Series<Change>,
    rows: u64,
    moment: Moment,
    person: &PersonCode,
    first: &Deed,
    second: &Deed,
) -> Result<(), OutOfMemory>
    ensures added { OnOk result
        (changes.new ≡ changes.old ++ trail_rows_if_room rows moment person.now first.now second.now) }
    ensures memory { OnErr result (nat_le count_limit rows ≡ false) }
{
    let Some(number) = next_number(rows) else {
        return Ok(());
    };
    let row = trail_row_of(alloc, number, moment, person, first)?;
    changes.push(Change::TrailAdded(row))?;
    let told = u64::from(number.get());
    add_row_if_room(alloc, changes, told, moment, person, second)
}

/// Adds what a failed password changes. Fails only if memory runs out, and only if something
/// changes.
///
/// # Errors
/// Memory ran out.
pub fn fail(
    alloc: Global,
    changes: &mut Series<Change>,
    rows: u64,
    strays: u64,
    moment: Moment,
    occasion: Occasion,
    failure: Failure,
) -> Result<(), OutOfMemory>
    ensures changed { OnOk result
        (changes.new ≡ changes.old ++ failure_changes rows strays moment occasion failure) }
    ensures memory { OnErr result (IsFailureWritten rows failure) }
{
    match failure {
        Failure::Counted(person) => fail_counted(alloc, changes, rows, moment, occasion, person),
        Failure::Locking(person) => fail_locking(alloc, changes, rows, moment, occasion, person),
        Failure::AlreadyLocked(person) => {
            let refused = Deed::Refuse { occasion };
            add_row_if_room(alloc, changes, rows, moment, &person.code, &refused)
        }
        Failure::Stray => {
            changes.push(Change::Strays(more_strays(strays)))?;
            Ok(())
        }
    }
}

// Adds the changes of a failed password that is counted. The person always changes.
fn fail_counted(
    alloc: Global,
    changes: &mut Series<Change>,
    rows: u64,
    moment: Moment,
    occasion: Occasion,
    person: Person,
) -> Result<(), OutOfMemory>
    ensures { OnOk result (changes.new ≡ changes.old
        ++ Change.PersonSet person ∷ trail_row_if_room rows moment person.code (Deed.Refuse occasion)) }
{
    let code = person.code.copy()?;
    changes.push(Change::PersonSet(person))?;
    let refused = Deed::Refuse { occasion };
    add_row_if_room(alloc, changes, rows, moment, &code, &refused)
}

// Adds the changes of a failed password that locks the account. The person always changes.
fn fail_locking(
    alloc: Global,
    changes: &mut Series<Change>,
    rows: u64,
    moment: Moment,
    occasion: Occasion,
    person: Person,
) -> Result<(), OutOfMemory>
    ensures { OnOk result (changes.new ≡ changes.old ++ Change.PersonSet person
        ∷ Change.SessionsClosed person.code Closing.All
        ∷ trail_rows_if_room rows moment person.code (Deed.Refuse occasion) (Deed.Lock person.code)) }
{
    let code = person.code.copy()?;
    let closed = person.code.copy()?;
    let locked = person.code.copy()?;
    changes.push(Change::PersonSet(person))?;
    changes.push(Change::SessionsClosed {
        person: closed,
        closing: Closing::All,
    })?;
    let refused = Deed::Refuse { occasion };
    let lock = Deed::Lock { person: locked };
    add_rows_if_room(alloc, changes, rows, moment, &code, &refused, &lock)
}

// The count after one more stray password.
fn more_strays(strays: u64) -> u64
    ensures { result ≡ more_strays strays }
{
    if strays >= STRAYS_LIMIT {
        strays
    } else {
        strays + 1
    }
}
