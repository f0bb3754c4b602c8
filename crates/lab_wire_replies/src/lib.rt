//! The text of the body of a laboratory's reply: JSON (RFC 8259), or CSV (RFC 4180) for a copy.
//! This crate knows no HTTP.
#![tactic(auto)]

mod forms;
pub mod members;
pub mod parts;
mod persons;
mod records;
mod refusals;
mod replies;
mod trails;

pub use forms::{form_made_value, form_value};
pub use persons::{
    changed_value, closed_value, half_value, opened_value, person_done_value, persons_value,
    roles_set_value,
};
pub use refusals::{entry_value, refusal_value};
pub use replies::reply_body;
pub use trails::trail_value;
