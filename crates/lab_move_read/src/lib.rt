//! The laboratories of a file of an older schema: their codes, and each whole, as one of today's, with its forms and its
//! records. All that makes rows well kept is tried where a row is read (ISO/IEC 17025:2017, 7.5, 8.4.2, and 7.11.3(d), "the
//! integrity of the data and information"; 21 CFR 11.10(a) and (c)). Nothing is written.
#![tactic(auto)]

mod entries;
mod fields;
mod filed;
mod forms;
mod heads;
mod lab_codes;
mod leaves;
mod signatures;
mod wholes;

pub use filed::records_at;
pub use forms::{forms_alone, forms_at};
pub use lab_codes::codes;
pub use lab_move_read_people::KeptFault;
pub use wholes::whole;
