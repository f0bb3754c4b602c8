//! How values are entered.
ghost use Rattle.std.specs.Prelude.{◌≡◌, IfOk, Err, is_none, option_copied};
ghost use Rattle.std.specs.List.{list_any};
ghost use Rattle.std.specs.Option.{option_map_or};
ghost use Rattle.lab_records_kept.specs.Changes.{with_row};
ghost use Rattle.lab_records_kept.specs.Digests.{digest_of};
ghost use Rattle.lab_records_kept.specs.Values.{has_key};
ghost use Rattle.lab_records_rules.specs.Following.{Follows};
ghost use Rattle.lab_records_rules.specs.Private.Following.{IsReadWhere};
ghost use Rattle.lab_records_versions.specs.Entering.{is_open, has_value, item_refusal, entry_made, entering_last, entering};

use lab_forms::FormFault;
use lab_forms_texts::{Key, LabCode, Moment, Note, OutOfMemory, PersonCode};
use lab_people_access::PeopleRefusal;
use lab_records_kept::{ROWS_LIMIT, Record, Version};
use lab_records_rules::{CommandFault, EntryMade, Item, Refusal, fail};
use lab_seal_versions::{Digest, EntryRow, State};
use std::alloc::Global;

/// Enters a value into the last version of the record that was looked up, if that version is open.
/// A key that already has a value wants a reason. Memory is the fault only if these rules accept
/// the command.
///
/// # Errors
/// The refusal of the command, or memory ran out.
pub fn enter(
    alloc: Global,
    lab: &LabCode,
    kept: Option<&Record>,
    item: Item,
    reason: Option<Note>,
    caller: PersonCode,
    moment: Moment,
) -> Result<EntryMade, CommandFault>
    ensures { Follows
        (entering lab.now (option_copied kept.entry) item reason caller moment) result }
{
    let Some(kept) = kept else {
        return fail(
            CommandFault::Refused(Refusal::NoSuchRecord),
            (item, reason, caller),
        );
    };
    let Some(version) = kept.current() else {
        return fail(
            CommandFault::Refused(Refusal::NotOpen),
            (item, reason, caller),
        );
    };
    if !is_open(kept.state_of(version)) {
        return fail(
            CommandFault::Refused(Refusal::NotOpen),
            (item, reason, caller),
        );
    }
    enter_item(alloc, lab, kept, version, item, reason, caller, moment)
}

// Enters an item into a version that is open. A refusal is returned even if there was no memory for
// the value.
fn enter_item(
    alloc: Global,
    lab: &LabCode,
    kept: &Record,
    version: &Version,
    item: Item,
    reason: Option<Note>,
    caller: PersonCode,
    moment: Moment,
) -> Result<EntryMade, CommandFault>
    ensures { Follows
        (option_map_or Err (item_refusal kept.now item)
        (entering_last lab.now kept.now version.now item reason caller moment)) result }
{
    let value = match read_item(alloc, kept, &item) {
        Ok(value) => Some(value),
        Err(CommandFault::Memory) => None,
        Err(CommandFault::Refused(refusal)) => {
            return fail(CommandFault::Refused(refusal), (item, reason, caller));
        }
    };
    if reason.is_none() && has_value(kept, &item.key) {
        return fail(
            CommandFault::Refused(Refusal::ReasonWanted),
            (item, reason, caller, value),
        );
    }
    if version.rows.rows().len() >= ROWS_LIMIT {
        return fail(
            CommandFault::Refused(Refusal::People(PeopleRefusal::LabFull)),
            (item, reason, caller, value),
        );
    }
    let Some(value) = value else {
        return fail(CommandFault::Memory, (item, reason, caller, value));
    };
    let row = EntryRow {
        key: item.key,
        value,
        unit: item.unit,
        person: caller,
        moment,
        reason,
    };
    Ok(entry_made(alloc, lab, kept, version, row)?)
}

fn is_open(state: Option<State>) -> bool
    ensures { result ≡ is_open state }
{
    match state {
        Some(State::Open) => true,
        _ => false,
    }
}

/// Reads the value of an item with the form of the record. Memory is the fault only if the form
/// takes the value.
///
/// # Errors
/// The refusal of the command, or memory ran out.
#[tactic(auto, using(crate::proofs::ValueLemmas::no_refusal))]
pub(crate) fn read_item(alloc: Global, kept: &Record, item: &Item) -> Result<Note, CommandFault>
    ensures { IsReadWhere (is_none (item_refusal kept.now item.now))
        (item_refusal kept.now item.now) item.now.value result }
{
    match kept
        .form
        .form
        .read_value(alloc, &item.key, item.value.as_str(), &item.unit)
    {
        Ok(value) => Ok(value.into_note()),
        Err(FormFault::Refused(refusal)) => Err(CommandFault::Refused(Refusal::Form(refusal))),
        Err(FormFault::Memory) => Err(CommandFault::Memory),
    }
}

// Whether the record already has a value of the key: one walk over the rows, which takes no memory.
fn has_value(kept: &Record, key: &Key) -> bool
    ensures { result ≡ has_value kept.now key.now }
{
    for version in kept.versions.as_slice() {
        if is_entered(version.rows.rows(), key) {
            return true;
        }
    }
    false
}

fn is_entered(rows: &[EntryRow], key: &Key) -> bool
    ensures { result ≡ list_any (has_key key.now) rows.now }
{
    rows.iter().any(|row| row.key.as_str() == key.as_str())
}

// The row that was entered, with its version.
fn entry_made(
    alloc: Global,
    lab: &LabCode,
    kept: &Record,
    version: &Version,
    row: EntryRow,
) -> Result<EntryMade, OutOfMemory>
    ensures { IfOk result (λ made. made ≡ entry_made lab.now kept.now version.now row) }
{
    match digest_with(alloc, lab, kept, version, &row) {
        Ok(digest) => Ok(EntryMade {
            number: kept.number,
            version: version.origin.number(),
            row,
            rows: version.rows.rows().len() as u64 + 1,
            digest,
        }),
        Err(error) => fail(error, row),
    }
}

// The digest of a version with one more row.
fn digest_with(
    alloc: Global,
    lab: &LabCode,
    kept: &Record,
    version: &Version,
    row: &EntryRow,
) -> Result<Digest, OutOfMemory>
    ensures { IfOk result (λ digest.
        digest ≡ digest_of lab.now kept.now (with_row row.now version.now)) }
{
    let next = with_row(version, row)?;
    let digest = kept.digest_of(alloc, lab, &next);
    drop(next);
    digest
}

// A version with one more row.
fn with_row(version: &Version, row: &EntryRow) -> Result<Version, OutOfMemory>
    ensures { IfOk result (λ next. next ≡ with_row row.now version.now) }
{
    let row = row.copy()?;
    let mut next = version.copy()?;
    next.rows.push(row)?;
    Ok(next)
}
