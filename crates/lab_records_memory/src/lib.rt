//! A keeper of laboratories in memory: a list of laboratories. A laboratory is found by its code,
//! and the keeper reads the part that a request needs, makes changes and founds laboratories
//! (ISO/IEC 17025:2017, 8.4.2).
#![tactic(auto)]

mod held;
mod lists;
mod lookups;
mod parts;

pub use lists::Lists;
pub use parts::part;
