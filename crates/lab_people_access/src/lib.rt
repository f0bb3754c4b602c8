//! Who may log in, and what each person may do: persons with their passwords and roles, sessions
//! and the policy. Each function sees one person and one session, no table and no other laboratory
//! (21 CFR 11.10(g), 11.200(a)(1)(i), and those parts of 11.300(a), (b) and (d) that `specs/`
//! quotes).
#![tactic(auto)]

mod attempts;
mod openings;
mod passwords;
mod persons;
mod policy;
mod refusals;
mod roles;
mod sessions;
mod times;

pub use attempts::{attempt, attempt_signing};
pub use openings::{Opened, open_session};
pub use passwords::{OLD_ROUNDS, Password, ROUNDS, are_rounds};
pub use persons::{Ask, PERSONS_LIMIT, Person};
pub use policy::{Rule, allowed};
pub use refusals::{Failure, PeopleFault, PeopleRefusal};
pub use roles::{Role, Roles};
pub use sessions::{Closing, Session, live};
