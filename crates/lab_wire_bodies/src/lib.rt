//! What the body of a request says: the command or the founding that it names, read from JSON (RFC
//! 8259) by a list of members. This crate knows no laboratories, routes or heads.
#![tactic(auto)]

mod accounts;
mod bodies;
mod forms;
mod foundings;
mod records;
mod signatures;

pub use bodies::{Post, command_of, founding_of};
pub use lab_forms::FormRefusal;
pub use lab_records_machine::{Command, Founder, Founding};
pub use lab_wire_members::{BodyFault, BodyRefusal};
pub use records::{amendment, entry, record};
pub use signatures::signature;
