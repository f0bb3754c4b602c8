//! Persons, as their own rows show them.

use lab_forms_texts::{Moment, Name, PersonCode};
use lab_people_access::{Password, Roles};
use lab_seal_hashes::Verifier;

/// What an administrator asked for, with the id of that administrator's row.
#[derive(Clone, Copy)]
pub struct AskHead {
    /// The id of the row of the person who asked.
    pub asker: i64,
    /// The moment of the asking.
    pub asked: Moment,
    /// The verifier that recognizes the first half.
    pub first: Verifier,
}

/// A person's own row.
#[derive(Drop)]
pub struct PersonHead {
    /// The code.
    pub code: PersonCode,
    /// The printed name.
    pub name: Name,
    /// The person's roles.
    pub roles: Roles,
    /// Whether the person has left.
    pub retired: bool,
    /// The failed passwords since the last success or unlocking.
    pub failures: u32,
    /// When the account was locked, if it was.
    pub locked: Option<Moment>,
    /// What is kept of the password.
    pub password: Password,
    /// What an administrator asked for.
    pub ask: Option<AskHead>,
}
