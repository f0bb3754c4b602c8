//! The advice for a person at a terminal when a task stopped.
#![tactic(auto)]

mod advice;
mod flaw_rows;
mod spots;

pub use crate::advice::write_advice;
pub use crate::spots::{Spot, Whose};
