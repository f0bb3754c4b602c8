//! Whether a laboratory is within its limits.

ghost use Rattle.std.specs.Prelude.{◌≡◌, ◌↔◌, IsTrue, option_copied};
ghost use Rattle.std.specs.List.{list_all};
ghost use Rattle.lab_records_kept.specs.Limits.{IsWithin};
ghost use Rattle.lab_records_kept.specs.Lookups.{exact_form};
ghost use Rattle.lab_move_tables.specs.Private.Within.{is_small_form, has_few_rows, is_orderly, is_by_form, are_few, are_forms_kept, are_ordered, is_kept_within};

use crate::orders::{
    are_forms_in_order, are_forms_numbered, are_in_order, are_records_numbered,
    are_sessions_numbered, are_told_numbered, are_versions_numbered,
};
use lab_forms::FIELDS_LIMIT;
use lab_forms_texts::{Key, Ordinal};
use lab_people_access::PERSONS_LIMIT;
use lab_records_kept::{
    COUNT_LIMIT, FORM_VERSIONS_LIMIT, FormVersion, Lab, RECORDS_LIMIT, ROWS_LIMIT, Record,
    STRAYS_LIMIT, VERSIONS_LIMIT, Version,
};

// Whether a version of a form has no greater number, and no more fields, than it may.
fn is_small_form(form: &FormVersion) -> bool
    ensures { result ≡ is_small_form form.now }
{
    form.version.get() <= FORM_VERSIONS_LIMIT && form.form.fields().len() <= FIELDS_LIMIT
}

// Whether a version has no more rows than it may.
fn has_few_rows(version: &Version) -> bool
    ensures { result ≡ has_few_rows version.now }
{
    version.rows.rows().len() <= ROWS_LIMIT
}

// Whether no version has more rows than it may.
fn have_few_rows(versions: &[Version]) -> bool
    ensures { result ≡ list_all has_few_rows versions.now }
{
    versions.iter().all(|version| has_few_rows(version))
}

// Whether a record has a version, its versions are numbered, and there are no more of them, and of their rows, than there may be.
fn is_orderly(kept: &Record) -> bool
    ensures { result ≡ is_orderly kept.now }
{
    let versions = kept.versions.as_slice();
    1 <= versions.len()
        && versions.len() <= VERSIONS_LIMIT as usize
        && are_versions_numbered(versions)
        && have_few_rows(versions)
}

// The version of a form that has the code and the number.
fn exact_form<'a>(forms: &'a [FormVersion], code: &Key, version: Ordinal) -> Option<&'a FormVersion>
    ensures { option_copied result ≡ exact_form forms.now code.now version }
{
    forms.iter().find(|one| one.code.as_str() == code.as_str() && one.version == version)
}

// Whether the form of a record is one of these.
fn is_by_form(forms: &[FormVersion], kept: &Record) -> bool
    ensures { result ≡ is_by_form forms.now kept.now }
{
    match exact_form(forms, &kept.form.code, kept.form.version) {
        Some(one) => one.form == kept.form.form,
        None => false,
    }
}

// Whether there are no more persons, sessions, rows of the trail, records and stray passwords than there may be.
fn are_few(lab: &Lab) -> bool
    ensures { result ≡ are_few lab.now }
{
    lab.persons.as_slice().len() <= PERSONS_LIMIT as usize
        && lab.sessions.as_slice().len() as u64 <= COUNT_LIMIT
        && lab.trail.as_slice().len() as u64 <= COUNT_LIMIT
        && lab.records.as_slice().len() as u64 <= RECORDS_LIMIT
        && lab.strays <= STRAYS_LIMIT
}

// Whether each version of a form is a small one.
fn are_small_forms(forms: &[FormVersion]) -> bool
    ensures { result ≡ list_all is_small_form forms.now }
{
    forms.iter().all(|form| is_small_form(form))
}

// Whether each record is orderly.
fn are_orderly(records: &[Record]) -> bool
    ensures { result ≡ list_all is_orderly records.now }
{
    records.iter().all(|kept| is_orderly(kept))
}

// Whether the form of each record is one of these.
fn are_by_forms(forms: &[FormVersion], records: &[Record]) -> bool
    ensures { result ≡ list_all (is_by_form forms.now) records.now }
{
    records.iter().all(|kept| is_by_form(forms, kept))
}

// Whether each version of a form is a small one, and each record is orderly and by one of them.
fn are_forms_kept(lab: &Lab) -> bool
    ensures { result ≡ are_forms_kept lab.now }
{
    are_small_forms(lab.forms.as_slice())
        && are_orderly(lab.records.as_slice())
        && are_by_forms(lab.forms.as_slice(), lab.records.as_slice())
}

// Whether all lists stand in order, and are numbered from 1 on.
fn are_ordered(lab: &Lab) -> bool
    ensures { result ≡ are_ordered lab.now }
{
    are_in_order(lab.persons.as_slice())
        && are_forms_in_order(lab.forms.as_slice())
        && are_forms_numbered(lab.forms.as_slice())
        && are_sessions_numbered(lab.sessions.as_slice())
        && are_records_numbered(lab.records.as_slice())
        && are_told_numbered(lab.trail.as_slice())
}

// Whether all of these are so.
fn is_kept_within(lab: &Lab) -> bool
    ensures { result ≡ is_kept_within lab.now }
{
    are_few(lab) && are_forms_kept(lab) && are_ordered(lab)
}

/// Whether the laboratory has no more of anything than it may, and all of it is in order and numbered from 1 on.
pub fn is_within(lab: &Lab) -> bool
    ensures { IsTrue result ↔ IsWithin lab.now }
{
    is_kept_within(lab)
}
