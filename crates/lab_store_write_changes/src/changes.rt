//! Each change inside a transaction, and changes one after the other.

ghost use Rattle.std.specs.Prelude.{OnOk, IsTrue};
ghost use Rattle.std.specs.List.{list_all};
ghost use Rattle.sqlite.specs.Effect.{IsDatabase};
ghost use Rattle.sqlite.specs.State.{HasCleanDisk};
ghost use Rattle.lab_records_kept.specs.declared.changes.Change.TheVariants.{Last, Strays, SessionsClosed};
ghost use Rattle.lab_store_tables.specs.Changes.{AppliesIn, InTurn};
ghost use Rattle.lab_store_tables.specs.Steps.{AppliesWhereKept, StepsBy};
ghost use Rattle.lab_store_write.specs.Calls.{Stays, Steps, WritesTrying, WritesUnlessTrying, FailsForTrying, MadeFrom};
ghost use Rattle.lab_store_write.specs.Givers.{Knows};
ghost use Rattle.lab_store_write_changes.specs.Causes.{IsTooMuch, OneIsTooMuch};
ghost use Rattle.lab_store_write_changes.specs.Framed.{spares_last, framed};
ghost use Rattle.lab_store_write_changes.specs.Private.Framed.{keeps_giver, StepsKnowing};
ghost use Rattle.lab_store_write_changes.specs.Tried.{TriedFrom, TriesIn, TriesEach, TriesFramed, TriesAll, WritesKnowing};

use crate::framed::frame_of;
use crate::{add_form, add_record, enter_row, open_version, sign_version};
use lab_forms_texts::{Moment, PersonCode};
use lab_records_kept::{Change, Closing, TrailRow};
use lab_store_write::{
    Giver, RowId, Writable, add_person, add_session, add_told, close_sessions, giver_if_any,
    set_last, set_person, set_session, set_strays,
};
use sqlite::Error;

// Sets the last moment.
fn change_last<W: Writable>(tx: &mut W, lab: RowId, moment: Moment) -> Result<(), Error>
    ensures { WritesTrying (TriesIn lab.id (Last moment)) W.lender W.state
        (AppliesIn lab.id (Last moment)) tx.old tx.new result }
{
    set_last(tx, lab, moment)?;
    Ok(())
}

// Sets how many passwords were given for no person's account.
fn change_strays<W: Writable>(tx: &mut W, lab: RowId, count: u64) -> Result<(), Error>
    ensures { WritesUnlessTrying (λ _. IsTooMuch (Strays count)) (TriesIn lab.id (Strays count))
        W.lender W.state (AppliesIn lab.id (Strays count)) tx.old tx.new result }
{
    set_strays(tx, lab, count)?;
    Ok(())
}

// Closes the sessions of the person that the change names.
fn change_sessions<W: Writable>(
    tx: &mut W,
    lab: RowId,
    giver: Option<Giver<'_>>,
    person: &PersonCode,
    closing: Closing,
) -> Result<(), Error>
    ensures { WritesKnowing lab.id giver.entry (TriesIn lab.id (SessionsClosed person.now closing))
        (AppliesWhereKept lab.id (SessionsClosed person.now closing))
        W.lender W.state tx.old tx.new result }
{
    close_sessions(tx, lab, giver, person, closing)
}

// Makes the change of the laboratory whose row has the id.
fn change_rows<W: Writable>(
    tx: &mut W,
    lab: RowId,
    giver: Option<Giver<'_>>,
    change: &Change,
) -> Result<(), Error>
    ensures { WritesUnlessTrying (λ _. IsTooMuch change.now)
        (TriedFrom (Knows lab.id giver.entry) (TriesIn lab.id change.now)) W.lender W.state
        (MadeFrom (Knows lab.id giver.entry) (AppliesWhereKept lab.id change.now))
        tx.old tx.new result }
{
    match change {
        Change::Last(moment) => change_last(tx, lab, *moment),
        Change::Strays(count) => change_strays(tx, lab, *count),
        Change::PersonAdded(person) => add_person(tx, lab, giver, person),
        Change::PersonSet(person) => set_person(tx, lab, giver, person),
        Change::SessionAdded(session) => add_session(tx, lab, giver, session),
        Change::SessionSet(session) => set_session(tx, lab, giver, session),
        Change::SessionsClosed { person, closing } => {
            change_sessions(tx, lab, giver, person, *closing)
        }
        Change::FormAdded(form) => add_form(tx, lab, form),
        Change::RecordAdded(kept) => add_record(tx, lab, giver, kept),
        Change::RowAdded { record, row } => enter_row(tx, lab, giver, *record, row),
        Change::VersionOpened { record, version } => {
            open_version(tx, lab, giver, *record, version)
        }
        Change::SignatureAdded {
            record,
            version,
            signature,
        } => sign_version(tx, lab, giver, *record, *version, signature),
        Change::TrailAdded(row) => add_told(tx, lab, giver, None, row),
    }
}

// Makes the changes, one after the other.
fn each_inside<W: Writable>(
    tx: &mut W,
    lab: RowId,
    giver: Option<Giver<'_>>,
    changes: &[Change],
) -> Result<(), Error>
    ensures stays { Stays W.lender W.state tx.old tx.new }
    ensures inside { IsTrue (W.state tx.old).in_transaction → HasCleanDisk (W.state tx.new) →
        OnOk result (IsTrue (W.state tx.new).in_transaction) }
    // For changes that keep who gives the command known, in a database that keeps its own rules:
    ensures made { IsTrue (keeps_giver giver.entry changes.now) →
        IsTrue (W.state tx.old).in_transaction → HasCleanDisk (W.state tx.new) →
        OnOk result (IsDatabase (W.state tx.old).now →
        Steps (StepsKnowing lab.id giver.entry changes.now) (W.state tx.old) (W.state tx.new)) }
    ensures failed { IsTrue (keeps_giver giver.entry changes.now) →
        IsDatabase (W.state tx.old).now → FailsForTrying (λ _. OneIsTooMuch changes.now)
        (TriedFrom (Knows lab.id giver.entry) (TriesEach lab.id changes.now))
        W.state tx.old tx.new result }
{
    for change in changes {
        change_rows(tx, lab, giver, change)?;
    }
    Ok(())
}

// Makes the changes that most requests make: who gives the command is looked up once, and the row
// of the trail also sets the last moment.
fn framed_inside<W: Writable>(
    tx: &mut W,
    lab: RowId,
    moment: Moment,
    between: &[Change],
    told: &TrailRow,
) -> Result<(), Error>
    ensures stays { Stays W.lender W.state tx.old tx.new }
    ensures inside { IsTrue (W.state tx.old).in_transaction → HasCleanDisk (W.state tx.new) →
        OnOk result (IsTrue (W.state tx.new).in_transaction) }
    // For such changes between, in a database that keeps its own rules:
    ensures made { IsTrue (list_all spares_last between.now) →
        IsTrue (W.state tx.old).in_transaction → HasCleanDisk (W.state tx.new) →
        OnOk result (IsDatabase (W.state tx.old).now →
        Steps (InTurn (StepsBy lab.id) (framed moment between.now told.now))
        (W.state tx.old) (W.state tx.new)) }
    ensures failed { IsTrue (list_all spares_last between.now) →
        IsDatabase (W.state tx.old).now → FailsForTrying (λ _. OneIsTooMuch between.now)
        (TriesFramed lab.id moment between.now told.now) W.state tx.old tx.new result }
{
    let giver = giver_if_any(tx, lab, &told.person)?;
    each_inside(tx, lab, giver, between)?;
    add_told(tx, lab, giver, Some(moment), told)
}

/// Makes the changes, one after the other.
///
/// # Errors
/// The store failed, or memory ran out.
pub fn all_inside<W: Writable>(tx: &mut W, lab: RowId, changes: &[Change]) -> Result<(), Error>
    ensures stays { Stays W.lender W.state tx.old tx.new }
    ensures inside { IsTrue (W.state tx.old).in_transaction → HasCleanDisk (W.state tx.new) →
        OnOk result (IsTrue (W.state tx.new).in_transaction) }
    // In a database that keeps its own rules:
    ensures made { IsTrue (W.state tx.old).in_transaction → HasCleanDisk (W.state tx.new) →
        OnOk result (IsDatabase (W.state tx.old).now →
        Steps (InTurn (StepsBy lab.id) changes.now) (W.state tx.old) (W.state tx.new)) }
    ensures failed { IsDatabase (W.state tx.old).now →
        FailsForTrying (λ _. OneIsTooMuch changes.now) (TriesAll lab.id changes.now)
        W.state tx.old tx.new result }
{
    match frame_of(changes) {
        Some(some) => framed_inside(tx, lab, some.moment, some.between, some.told),
        None => each_inside(tx, lab, None, changes),
    }
}
