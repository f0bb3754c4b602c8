//! The part of a laboratory that a command needs, as the tables of a file have it (ISO/IEC
//! 17025:2017, 8.4.2; 21 CFR 11.10(c), (d)). Nothing is written.
#![tactic(auto)]

mod counts;
mod lists;
mod loading;
mod people;
mod things;

pub use counts::{Counted, lab_id_at};
pub use loading::load;
