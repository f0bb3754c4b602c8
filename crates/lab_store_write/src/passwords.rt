//! The values in the columns of a person's password, roles and one-time word that was asked for.

ghost use Rattle.std.specs.Prelude.{◌≡◌, option_map, if◌then◌else◌};
ghost use Rattle.sqlite_value.specs.declared.value.Value.TheVariants.{Blob};
ghost use Rattle.sqlite_value.specs.Value.{owned};
ghost use Rattle.sqlite.specs.Values.{bound_value};
ghost use Rattle.lab_store_tables.specs.Rows.{number, optional};
ghost use Rattle.lab_store_tables.specs.Columns.{roles_sum};
ghost use Rattle.lab_store_write.specs.Private.Persons.{password_cells, ask_cells, salt_in, rounds_in, made_in};

use crate::RowId;
use lab_forms_texts::Moment;
use lab_people_access::{Ask, Password, Roles};
use lab_seal_hashes::VerifierParts;
use sqlite::types::ValueRef;

/// The values in the columns of a password. Kind 0: no password; 1: a chosen one, with one
/// verifier; 2: a one-time word, with two.
#[derive(Clone, Copy)]
pub(crate) struct PasswordCells {
    /// The kind.
    pub kind: u32,
    /// The first verifier.
    pub first: Option<VerifierParts>,
    /// The second verifier.
    pub second: Option<VerifierParts>,
    /// When it was chosen or confirmed.
    pub changed: Option<Moment>,
}

/// The values in the columns of a one-time word that was asked for.
#[derive(Clone, Copy)]
pub(crate) struct AskCells {
    /// The person who asked.
    pub asker: Option<RowId>,
    /// The moment of the asking.
    pub asked: Option<Moment>,
    /// The verifier.
    pub first: Option<VerifierParts>,
}

/// Returns the values in the columns of the password.
pub(crate) fn password_cells(password: &Password) -> PasswordCells
    ensures { result ≡ password_cells password.now }
{
    match password {
        Password::Unset => PasswordCells {
            kind: 0,
            first: None,
            second: None,
            changed: None,
        },
        Password::Chosen { verifier, changed } => PasswordCells {
            kind: 1,
            first: Some(verifier.parts()),
            second: None,
            changed: Some(*changed),
        },
        Password::OneTime {
            first,
            second,
            confirmed,
        } => PasswordCells {
            kind: 2,
            first: Some(first.parts()),
            second: Some(second.parts()),
            changed: Some(*confirmed),
        },
    }
}

/// Returns the values in the columns of what was asked for, and by whom.
pub(crate) fn ask_cells(asker: Option<RowId>, ask: &Option<Ask>) -> AskCells
    ensures { result ≡ ask_cells asker ask.now }
{
    match ask {
        Some(ask) => AskCells {
            asker,
            asked: Some(ask.asked),
            first: Some(ask.first.parts()),
        },
        None => AskCells {
            asker: None,
            asked: None,
            first: None,
        },
    }
}

// A weight, if it counts; otherwise 0.
fn weight(counts: bool, weight: u32) -> u32
    ensures { result ≡ (if counts then weight else 0) }
{
    if counts { weight } else { 0 }
}

/// Returns the sum that stands for the roles.
pub(crate) fn roles_sum(roles: Roles) -> u32
    ensures { result ≡ roles_sum roles }
{
    let analyst = weight(roles.analyst, 1);
    let reviewer = weight(roles.reviewer, 2);
    let manager = weight(roles.manager, 4);
    let administrator = weight(roles.administrator, 8);
    let inspector = weight(roles.inspector, 16);
    analyst + reviewer + manager + administrator + inspector
}

/// Returns the salt, or NULL.
pub(crate) fn salt_or_null(parts: &Option<VerifierParts>) -> ValueRef<'_>
    ensures { bound_value (owned result) ≡ optional Blob (option_map salt_in parts.now) }
{
    match parts {
        Some(parts) => ValueRef::Blob(&parts.salt),
        None => ValueRef::Null,
    }
}

/// Returns the rounds, or NULL.
pub(crate) fn rounds_or_null<'a>(parts: &Option<VerifierParts>) -> ValueRef<'a>
    ensures { bound_value (owned result) ≡ optional number (option_map rounds_in parts.now) }
{
    match parts {
        Some(parts) => ValueRef::Int(i64::from(parts.rounds)),
        None => ValueRef::Null,
    }
}

/// Returns what PBKDF2 made, or NULL.
pub(crate) fn made_or_null(parts: &Option<VerifierParts>) -> ValueRef<'_>
    ensures { bound_value (owned result) ≡ optional Blob (option_map made_in parts.now) }
{
    match parts {
        Some(parts) => ValueRef::Blob(&parts.bytes),
        None => ValueRef::Null,
    }
}
