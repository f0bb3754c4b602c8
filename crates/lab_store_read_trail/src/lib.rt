//! The rows of a laboratory's trail, as the tables of a file have them (ISO/IEC 17025:2017, 8.4.2;
//! 21 CFR 11.10(e)). Nothing is written.
#![tactic(auto)]

mod actions;
mod cells;
mod heads;
mod trails;

pub use heads::ToldHead;
pub use trails::{told_of_rows, trail_within};
