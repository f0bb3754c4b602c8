//! `labdesk check`: what is found in an inspection copy, printed in a line.
#![tactic(auto)]

mod faults;
mod verdicts;

pub use faults::StopFault;
pub use lab_copy::Flaw;
pub use lab_forms_streams::WriteFault;
pub use verdicts::{Checked, check};
