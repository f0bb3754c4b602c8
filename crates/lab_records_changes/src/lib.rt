//! The changes of a laboratory in memory, each made in its place: persons, sessions, forms,
//! records, entries, signatures and the trail (21 CFR 11.10(e), 11.70). If memory runs out, the
//! laboratory is as before.
#![tactic(auto)]

mod changes;
mod places;

pub use changes::{change, insert_person};
pub use places::{
    enter, open, place_for_form, place_for_person, place_of_person, place_of_record,
    place_of_session, sign,
};
