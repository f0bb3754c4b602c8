//! Subjects of the trail, as texts.
ghost use Rattle.std.specs.Prelude.{◌≡◌, ◌++◌, OnOk, IfOk, codes, decimal, string_bytes};
ghost use Rattle.std.specs.List.{flat_map};
ghost use Rattle.lab_records_kept.specs.Trails.{occasion_word, spaced_role, slashed, subject_text};

use itoa::Buffer;
use lab_forms_texts::{Key, Ordinal, OutOfMemory, PersonCode};
use lab_people_access::Role;
use lab_records_kept::{Deed, Occasion, Subject};
use std::alloc::Global;

/// Returns the text of a deed's subject in the trail. Fails only if memory runs out.
///
/// # Errors
/// Memory ran out.
pub(crate) fn subject_of(alloc: Global, deed: &Deed) -> Result<Subject, OutOfMemory>
    ensures { IfOk result (λ subject. subject ≡ subject_text deed.now) }
{
    let mut text = String::new(alloc);
    push_subject(alloc, &mut text, deed)?;
    Ok(Subject::new(text))
}

// The word of an occasion.
fn occasion_word(occasion: Occasion) -> &'static str
    ensures { result.now ≡ occasion_word occasion }
{
    match occasion {
        Occasion::Opening => "open",
        Occasion::Changing => "password",
        Occasion::Signing => "sign",
    }
}

#[tactic(auto, unfolding(lab_records_kept::specs::Trails::roles_text))]
fn push_subject(alloc: Global, text: &mut String, deed: &Deed) -> Result<(), OutOfMemory>
    ensures { OnOk result (string_bytes text.new ≡ string_bytes text.old ++ subject_text deed.now) }
{
    match deed {
        Deed::Found { lab } => push_text(text, lab.as_str()),
        Deed::Open { session } | Deed::Close { session } => push_number(text, *session),
        Deed::Refuse { occasion } => push_text(text, occasion_word(*occasion)),
        Deed::Lock { person }
        | Deed::Password { person }
        | Deed::Issue { person }
        | Deed::Confirm { person }
        | Deed::Retire { person }
        | Deed::Unlock { person } => push_text(text, person.as_str()),
        Deed::Enrol { person, roles } | Deed::Roles { person, roles } => {
            push_roles(text, person, &roles.list(alloc)?)
        }
        Deed::Form { form, version } => push_form(text, form, *version),
        Deed::Record { record } => push_number(text, *record),
        Deed::Entry {
            record,
            version,
            key,
        } => push_in_version(text, *record, *version, key.as_str()),
        Deed::Amend { record, version } => push_version(text, *record, *version),
        Deed::Sign {
            record,
            version,
            meaning,
        } => push_in_version(text, *record, *version, meaning.word()),
    }
}

fn push_text(text: &mut String, more: &str) -> Result<(), OutOfMemory>
    ensures { OnOk result (string_bytes text.new ≡ string_bytes text.old ++ more.now) }
{
    text.push_str(more)?;
    Ok(())
}

fn push_number(text: &mut String, number: Ordinal) -> Result<(), OutOfMemory>
    ensures { OnOk result (string_bytes text.new ≡ string_bytes text.old ++ decimal number) }
{
    let mut buffer = Buffer::new();
    push_text(text, buffer.format(number.get()))
}

fn push_slashed(text: &mut String, number: Ordinal) -> Result<(), OutOfMemory>
    ensures { OnOk result (string_bytes text.new ≡ string_bytes text.old ++ slashed number) }
{
    push_text(text, "/")?;
    push_number(text, number)
}

// Adds the number of a record and that of a version.
fn push_version(text: &mut String, number: Ordinal, version: Ordinal) -> Result<(), OutOfMemory>
    ensures { OnOk result (string_bytes text.new
        ≡ string_bytes text.old ++ decimal number ++ slashed version) }
{
    push_number(text, number)?;
    push_slashed(text, version)
}

// Adds a part of a version: the number of its record, the number of the version, and the word of
// the part.
fn push_in_version(
    text: &mut String,
    number: Ordinal,
    version: Ordinal,
    part: &str,
) -> Result<(), OutOfMemory>
    ensures { OnOk result (string_bytes text.new
        ≡ string_bytes text.old ++ decimal number ++ slashed version ++ codes "/" ++ part.now) }
{
    push_version(text, number, version)?;
    push_text(text, "/")?;
    push_text(text, part)
}

// Adds the key of a form and the number of a version.
fn push_form(text: &mut String, form: &Key, version: Ordinal) -> Result<(), OutOfMemory>
    ensures { OnOk result (string_bytes text.new
        ≡ string_bytes text.old ++ form.now ++ slashed version) }
{
    push_text(text, form.as_str())?;
    push_slashed(text, version)
}

// Adds the code of a person and roles.
fn push_roles(text: &mut String, person: &PersonCode, roles: &[Role]) -> Result<(), OutOfMemory>
    ensures { OnOk result (string_bytes text.new
        ≡ string_bytes text.old ++ person.now ++ flat_map spaced_role roles.now) }
{
    push_text(text, person.as_str())?;
    push_each_role(text, roles)
}

fn push_each_role(text: &mut String, roles: &[Role]) -> Result<(), OutOfMemory>
    ensures { OnOk result (string_bytes text.new
        ≡ string_bytes text.old ++ flat_map spaced_role roles.now) }
{
    for role in roles {
        push_role(text, *role)?;
    }
    Ok(())
}

fn push_role(text: &mut String, role: Role) -> Result<(), OutOfMemory>
    ensures { OnOk result (string_bytes text.new ≡ string_bytes text.old ++ spaced_role role) }
{
    push_text(text, " ")?;
    push_text(text, role.word())
}
