//! Persons' accounts: changing a password, enrolling, issuing one-time words by two administrators,
//! setting roles, unlocking and retiring. Each call returns the changed values or the first
//! refusal, and takes no memory (21 CFR 11.100(a) and 11.300).
#![tactic(auto)]

mod account_laws;
mod accounts;
mod issues;
mod password_laws;

pub use account_laws::{
    a_code_is_given_once, a_one_time_word_takes_two, a_token_is_given_once,
    accounts_are_kept_by_others, retirement_is_for_good,
};
pub use accounts::{Effect, PasswordChanged, change_password, enrol, retire, set_roles, unlock};
pub use issues::{Issued, ask_issue, confirm_issue};
pub use lab_forms_texts::{
    Fault, Moment, MomentFault, Name, NameFault, Ordinal, OutOfMemory, PersonCode, RefusalKind,
    Tick,
};
pub use lab_people_access::{
    Ask, Closing, Failure, Opened, Password, PeopleFault, PeopleRefusal, Person, ROUNDS, Role,
    Roles, Rule, Session, allowed, are_rounds, attempt, attempt_signing, live, open_session,
};
pub use lab_seal_hashes::{Digest, Half, Token, Verifier, VerifierParts, founder_salts, salt};
pub use password_laws::{
    a_lock_closes_all_sessions, a_lock_lasts_half_an_hour, an_attempt_leaves_a_lock,
    another_code_is_a_wrong_password, repeated_failures_lock, the_halves_make_the_word,
};
