//! Statements inside a transaction over the tables of a file: what each of them makes of the rows,
//! the person whom a code names, the row of a laboratory, and a row of the trail; and the calls that
//! add and set persons, their accounts and their sessions (21 CFR 11.10(e), 11.300; ISO/IEC
//! 17025:2017, 7.11.3).
#![tactic(auto)]

mod closings;
pub mod ids;
mod labs;
mod named;
mod passwords;
mod persons;
mod places;
pub mod running;
mod sessions;
pub mod statements;
mod trails;
pub mod values;
mod writable;

pub use closings::close_sessions;
pub use labs::{set_last, set_strays};
pub use named::{Giver, first_id, giver_if_any, id_of, person_id_at, person_id_by};
pub use persons::{add_person, set_person};
pub use places::place_below;
pub use sessions::{add_session, set_session};
pub use statements::RowId;
pub use trails::add_told;
pub use writable::Writable;
