//! How records are amended.
ghost use Rattle.std.specs.Prelude.{◌≡◌, ◌+◌, ◌<◌, ◌==◌, ℕ, List, length, not, true, Some, Ok, map, is_none, IfOk, IfSome, IsSome, option_copied};
ghost use Rattle.lab_records_rules.specs.Latest.{noted};
ghost use Rattle.lab_records_kept.specs.Limits.{version_limit};
ghost use Rattle.lab_records_kept.specs.Values.{all_rows, value_of};
ghost use Rattle.lab_records_rules.specs.Following.{Follows, FollowsWhere};
ghost use Rattle.lab_records_rules.specs.Private.Following.{IsReadWhere};
ghost use Rattle.lab_records_versions.specs.Entering.{has_settled, is_same_value, item_refusal, altered_refusal, first_altered_refusal, entered_row, next_origin, opened_version, amendment_made, amending_by, is_table_made, amending};

use crate::entering::read_item;
use lab_forms_texts::{LabCode, Moment, Note, Ordinal, OutOfMemory, PersonCode, Series};
use lab_people_access::PeopleRefusal;
use lab_records_kept::{ROWS_LIMIT, Record, VERSIONS_LIMIT, Version};
use lab_records_rules::{Altered, AmendmentMade, CommandFault, Item, Refusal, latest, row_of_key};
use lab_seal_versions::{Amendment, EntryRow, EntryRows, Format, Origin, State};
use std::alloc::Global;
use std::collections::BTreeMap;

/// Makes the next version of the record that was looked up, if its last version is released or
/// rejected: with a reason, and with values that differ from the present ones. Memory can run out
/// only from the point where these values are compared with a table of the rows.
///
/// # Errors
/// The refusal of the command, or memory ran out.
pub fn amend(
    alloc: Global,
    lab: &LabCode,
    kept: Option<&Record>,
    reason: Option<Note>,
    altered: &Altered,
    caller: PersonCode,
    moment: Moment,
) -> Result<AmendmentMade, CommandFault>
    ensures { FollowsWhere (is_table_made (option_copied kept.entry) reason altered.now)
        (amending lab.now (option_copied kept.entry) reason altered.now caller moment) result }
{
    let Some(kept) = kept else {
        return Err(CommandFault::Refused(Refusal::NoSuchRecord));
    };
    let Some(last) = kept.current() else {
        return Err(CommandFault::Refused(Refusal::AmendmentOpen));
    };
    if !has_settled(kept.state_of(last)) {
        return Err(CommandFault::Refused(Refusal::AmendmentOpen));
    }
    let Some(reason) = reason else {
        return Err(CommandFault::Refused(Refusal::ReasonWanted));
    };
    amend_by(alloc, lab, kept, last, reason, altered, caller, moment)
}

// The next version after the last one, with the reason.
#[tactic(auto, using(crate::proofs::AlteringLemmas::amended))]
fn amend_by(
    alloc: Global,
    lab: &LabCode,
    kept: &Record,
    last: &Version,
    reason: Note,
    altered: &Altered,
    caller: PersonCode,
    moment: Moment,
) -> Result<AmendmentMade, CommandFault>
    ensures { FollowsWhere (not (length altered.now == 0))
        (amending_by lab.now kept.now last.now (Some reason) altered.now caller moment) result }
{
    if altered.as_slice().is_empty() {
        return Err(CommandFault::Refused(Refusal::NothingAltered));
    }
    let rows = altered_rows(alloc, kept, altered.as_slice(), &reason, &caller, moment)?;
    if last.origin.number().get() >= VERSIONS_LIMIT || altered.as_slice().len() > ROWS_LIMIT {
        return Err(CommandFault::Refused(Refusal::People(PeopleRefusal::LabFull)));
    }
    let origin = next_origin(alloc, lab, kept, last, reason)?;
    let version = opened_version(alloc, kept, origin, rows, caller, moment);
    Ok(amendment_made(alloc, lab, kept, version)?)
}

// What the new version amends, and why.
fn next_origin(
    alloc: Global,
    lab: &LabCode,
    kept: &Record,
    last: &Version,
    reason: Note,
) -> Result<Origin, CommandFault>
    requires { last.now.origin.number < version_limit }
    ensures { Follows (Ok (next_origin lab.now kept.now last.now reason)) result }
{
    let previous = kept.digest_of(alloc, lab, last)?;
    match origin_after(last.origin.number(), Amendment { previous, reason }) {
        Some(origin) => Ok(origin),
        None => Err(CommandFault::Refused(Refusal::People(PeopleRefusal::LabFull))),
    }
}

// The origin of the version after the version with the number; `None` after the last ordinal.
fn origin_after(number: Ordinal, amendment: Amendment) -> Option<Origin>
    ensures next { IfSome result (λ origin. origin
        ≡ record { number = number + 1; amendment = Some amendment }) }
    ensures there { number < version_limit → IsSome result }
{
    Origin::amending(number.next()?, amendment)
}

// A version with these rows, of the record's form. It takes no memory.
fn opened_version(
    alloc: Global,
    kept: &Record,
    origin: Origin,
    rows: EntryRows,
    caller: PersonCode,
    moment: Moment,
) -> Version
    ensures { result ≡ opened_version kept.now origin rows caller moment }
{
    let approval = kept.form.form.approval();
    Version {
        format: Format::Two { approval },
        origin,
        opener: caller,
        opened: moment,
        rows,
        signatures: Series::new(alloc),
    }
}

// The version that the amendment opened, and its digest.
fn amendment_made(
    alloc: Global,
    lab: &LabCode,
    kept: &Record,
    version: Version,
) -> Result<AmendmentMade, OutOfMemory>
    ensures { IfOk result (λ made. made ≡ amendment_made lab.now kept.now version) }
{
    let digest = kept.digest_of(alloc, lab, &version)?;
    Ok(AmendmentMade {
        number: kept.number,
        version,
        digest,
    })
}

fn has_settled(state: Option<State>) -> bool
    ensures { result ≡ has_settled state }
{
    match state {
        Some(state) => state.is_settled(),
        None => false,
    }
}

// The rows of a new version, each with the reason, if no item is refused.
fn altered_rows(
    alloc: Global,
    kept: &Record,
    items: &[Item],
    reason: &Note,
    caller: &PersonCode,
    moment: Moment,
) -> Result<EntryRows, CommandFault>
    ensures { IsReadWhere true (first_altered_refusal kept.now items.now)
        (map (λ item. entered_row item (Some reason.now) caller.now moment) items.now) result }
{
    let table = latest(alloc, kept.versions.as_slice())?;
    let mut rows = Vec::new(alloc);
    for item in items {
        let value = match altered_value(alloc, kept, &table, item) {
            Ok(value) => value,
            Err(fault) => return Err(fault),
        };
        rows.push(altered_row(item, value, reason, caller, moment)?)?;
    }
    Ok(EntryRows::new(rows))
}

// The value of an item, which must differ from the present one.
fn altered_value<'a>(
    alloc: Global,
    kept: &Record,
    table: &BTreeMap<&'a str, &'a EntryRow>,
    item: &Item,
) -> Result<Note, CommandFault>
    requires { (key : List ℕ) → noted table.now key ≡ value_of (all_rows kept.now.versions) key }
    ensures { IsReadWhere (is_none (item_refusal kept.now item.now))
        (altered_refusal kept.now item.now) item.now.value result }
{
    let value = read_item(alloc, kept, item)?;
    if is_same_value(row_of_key(table, &item.key), item.value.as_str()) {
        let key = item.key.copy()?;
        return Err(CommandFault::Refused(Refusal::NotAltered(key)));
    }
    Ok(value)
}

fn is_same_value(row: Option<&EntryRow>, value: &str) -> bool
    ensures { result ≡ is_same_value (option_copied row.entry) value.now }
{
    match row {
        Some(row) => row.value.as_str() == value,
        None => false,
    }
}

fn altered_row(
    item: &Item,
    value: Note,
    reason: &Note,
    caller: &PersonCode,
    moment: Moment,
) -> Result<EntryRow, OutOfMemory>
    requires { value ≡ item.now.value }
    ensures { IfOk result
        (λ row. row ≡ entered_row item.now (Some reason.now) caller.now moment) }
{
    let key = item.key.copy()?;
    let unit = item.unit.copy()?;
    let person = caller.copy()?;
    let reason = reason.copy()?;
    Ok(EntryRow {
        key,
        value,
        unit,
        person,
        moment,
        reason: Some(reason),
    })
}
