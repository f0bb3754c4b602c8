//! The files of laboratories of this machine, its clock, its source of random words and its
//! terminal.
#![tactic(auto)]

mod asides;
mod held;
mod hosts;
mod machine;
mod outside;
mod places;
mod stats;

pub use crate::hosts::{HostVolume, Supposed};
pub use crate::machine::{SystemChance, SystemClock, TerminalProgress};
pub use crate::outside::{Console, Machine};
