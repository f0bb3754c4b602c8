//! What the tables of a file say about the versions of a form, and about the whole forms and
//! records that a request names (ISO/IEC 17025:2017, 8.4.2; 21 CFR 11.10(c)). Nothing is written.
#![tactic(auto)]

mod asking;
mod cells;
mod choices;
mod fields;
mod filed;
mod forms;
mod forms_behind;
mod forms_by_code;
mod heads;
mod kinds;
mod wholes;

pub use choices::names_of_rows;
pub use filed::{about_at, filed_within, numbered_at};
pub use forms::{first_form, form_at, form_made, form_of_row, form_whole};
pub use forms_by_code::{exact_form_at, last_form_at};
pub use heads::{FieldHead, FormAt, FormHead};
pub use kinds::{kind_of_row, kind_with};
pub use wholes::record_whole;
