//! What a keeper of laboratories promises, whatever it keeps them in: a list in memory, or the tables
//! of a database.
#![tactic(auto)]

mod faults;
mod keeper;

pub use faults::{BadStore, KeeperFault, PlacingFault};
pub use keeper::Keeper;
