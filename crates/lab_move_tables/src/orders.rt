//! Whether lists are numbered from 1 on, and stand in the order of codes.

ghost use Rattle.std.specs.Prelude.{◌≡◌, None, [], option_copied};
ghost use Rattle.lab_records_kept.specs.Lookups.{comes_before, last_form};
ghost use Rattle.lab_move_tables.specs.Private.Orders.{are_numbered, are_in_order_after, are_forms_in_order_after, follows, are_forms_numbered};

use lab_forms_texts::{Key, Text, TextRule};
use lab_people_access::{Person, Session};
use lab_records_kept::{FormVersion, Record, TrailRow, Version};
use std::cmp::Ordering;

// Whether one text comes before another in the order of their bytes.
fn comes_before<R: TextRule>(one: &Text<R>, other: &Text<R>) -> bool
    ensures { result ≡ comes_before one.now other.now }
{
    match one.cmp(other) {
        Ordering::Less => true,
        Ordering::Equal | Ordering::Greater => false,
    }
}

/// Whether the sessions bear the numbers from 1 on, in order.
pub(crate) fn are_sessions_numbered(sessions: &[Session]) -> bool
    ensures { result ≡ are_numbered (λ session. session.number) sessions.now }
{
    let mut next = 1u64;
    for session in sessions {
        if u64::from(session.number.get()) != next {
            return false;
        }
        next = next.saturating_add(1);
    }
    true
}

/// Whether the records do.
pub(crate) fn are_records_numbered(records: &[Record]) -> bool
    ensures { result ≡ are_numbered (λ kept. kept.number) records.now }
{
    let mut next = 1u64;
    for kept in records {
        if u64::from(kept.number.get()) != next {
            return false;
        }
        next = next.saturating_add(1);
    }
    true
}

/// Whether the versions of a record do.
pub(crate) fn are_versions_numbered(versions: &[Version]) -> bool
    ensures { result ≡ are_numbered (λ version. version.origin.number) versions.now }
{
    let mut next = 1u64;
    for version in versions {
        if u64::from(version.origin.number().get()) != next {
            return false;
        }
        next = next.saturating_add(1);
    }
    true
}

/// Whether the rows of the trail do.
pub(crate) fn are_told_numbered(trail: &[TrailRow]) -> bool
    ensures { result ≡ are_numbered (λ row. row.number) trail.now }
{
    let mut next = 1u64;
    for row in trail {
        if u64::from(row.number.get()) != next {
            return false;
        }
        next = next.saturating_add(1);
    }
    true
}

/// Whether the persons stand in the order of their codes, no two of one code.
pub(crate) fn are_in_order(persons: &[Person]) -> bool
    ensures { result ≡ are_in_order_after None persons.now }
{
    let mut before: Option<&Person> = None;
    for person in persons {
        if let Some(other) = before {
            if !comes_before(&other.code, &person.code) {
                return false;
            }
        }
        before = Some(person);
    }
    true
}

/// Whether the versions of forms stand in the order of their codes.
pub(crate) fn are_forms_in_order(forms: &[FormVersion]) -> bool
    ensures { result ≡ are_forms_in_order_after None forms.now }
{
    let mut before: Option<&FormVersion> = None;
    for form in forms {
        if let Some(other) = before {
            if comes_before(&form.code, &other.code) {
                return false;
            }
        }
        before = Some(form);
    }
    true
}

// The last version of a form among these.
fn last_form<'a>(forms: &'a [FormVersion], code: &Key) -> Option<&'a FormVersion>
    ensures { option_copied result ≡ last_form forms.now code.now }
{
    forms
        .iter()
        .rev()
        .find(|one| one.code.as_str() == code.as_str())
}

// Whether the version of a form follows the last one of its code among the earlier ones, or is the first.
fn follows(earlier: &[FormVersion], form: &FormVersion) -> bool
    ensures { result ≡ follows earlier.now form.now }
{
    match last_form(earlier, &form.code) {
        Some(last) => u64::from(form.version.get()) == u64::from(last.version.get()) + 1,
        None => form.version.get() == 1,
    }
}

/// Whether the versions of each form bear the numbers from 1 on, in order.
pub(crate) fn are_forms_numbered(forms: &[FormVersion]) -> bool
    ensures { result ≡ are_forms_numbered [] forms.now }
{
    for (at, form) in forms.iter().enumerate() {
        if !follows(&forms[..at], form) {
            return false;
        }
    }
    true
}
